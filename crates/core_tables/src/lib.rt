//! The tables that the core keeps: of the outside of its work the live versions of the document,
//! which are shared and never change, and the executions that live versions assign, for each what
//! is known of its parts, and whether it was cancelled; and the tasks of the tip, parts of
//! executions that are to be worked on, each with the executions that it waits for, in the order in
//! which they are taken.
//!
//! Versions and executions are those of Wenzel, "Asynchronous User Interaction and Tool Integration
//! in Isabelle/PIDE" (ITP 2014), tasks with priorities, groups and dependencies those of Isabelle's
//! task queue (Wenzel, "Shared-Memory Multiprocessing for Interactive Theorem Proving", ITP 2013);
//! that versions are removed by name alone, and never the tip, the parts of executions, that an
//! execution has one task at a time, and the order among ready ones, are this project's own. What a
//! version holds and what a result is are any types, only kept and lent: it must not know of nodes,
//! texts, blobs, the language or who works.
#![tactic(auto)]

mod deque;
mod execs;
mod execution;
mod inputs;
mod priority;
mod queue;
mod rows;
mod task;
mod version;
mod versions;
mod waiters;

pub use execs::{Cancelling, Execs};
pub use execution::{Done, Execution, Progress};
pub use inputs::Inputs;
pub use priority::Priority;
pub use queue::TaskQueue;
pub use task::{Standing, Task};
pub use version::Version;
pub use versions::{Live, Removing, Versions};
