//! How a run of a job ends.

use crate::done::Done;
use crate::job::Job;

/// What came of a run.
#[derive(Drop)]
pub enum Ran<S> {
    Done(Done<S>),
    /// It was asked to stop. The job is as it was.
    Stopped(Job<S>),
    /// There was not enough memory. The job is as it was, and can be run again.
    NoMemory(Job<S>),
}
