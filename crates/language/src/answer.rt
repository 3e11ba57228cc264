//! How a job that may be stopped ends.

/// What came of a job.
#[derive(Debug, Drop)]
pub enum Answer<T> {
    Given(T),
    /// It was asked to stop.
    Stopped,
    NoMemory,
}
