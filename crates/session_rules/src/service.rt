//! How a session is served.

/// How a session is served: which functions the editor has, and who works.
#[derive(Clone, Copy, Debug, PartialEq, Eq)]
pub enum Service {
    /// The reader, which is worker 0, and so many workers beside it, work as they find parts ready.
    Workers { count: u32 },
    /// The messages say when a worker takes a part and when it finishes it; the reader works too.
    Script,
}
