//! How a run ends.

use crate::done::SessionDone;
use crate::job::SessionJob;

/// What came of a run.
#[derive(Drop)]
pub enum SessionRan<S> {
    Done(SessionDone<S>),
    /// It was asked to stop. The job is as it was.
    Stopped(SessionJob<S>),
    /// There was not enough memory. The job is as it was, and can be run again.
    NoMemory(SessionJob<S>),
}
