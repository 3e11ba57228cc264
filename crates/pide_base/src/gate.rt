//! Where a worker can be held by a test.
use crate::part::Part;

/// A place in a worker's work.
#[derive(Clone, Copy, Debug, PartialEq, Eq)]
pub enum Point {
    /// It has claimed the part.
    Claimed(Part),
    /// The part's job asks whether to stop.
    Asked(Part),
    /// The part's job is done, and is about to be handed in.
    BeforeFinish(Part),
}

/// Is told of each point that a worker comes to. It changes nothing that a contract names.
pub trait Gate {
    /// The worker of this number is at this point.
    fn at(&self, worker: u32, point: Point);
}
