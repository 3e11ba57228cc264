//! Jobs: what one worker needs to work on one part of an execution, what a job takes up (the state
//! behind an evaluation that is finished, or how a node begins, with the states that its imports
//! hand on), and what comes of it; the executions with an unfinished part, as lists, and what came
//! of a node's commands.
//!
//! The parts of executions are those of Wenzel, "Asynchronous User Interaction and Tool Integration
//! in Isabelle/PIDE" (ITP 2014); jobs are this project's own. A job owns references to values that
//! are shared, so that it is run far from the document, and handed back as it was where it was not
//! done. All is found by rows, in a table of executions and among the nodes of a version. It must
//! not know of versions, of what has happened, of who holds which part, or of threads.
#![tactic(auto)]

mod called;
mod done;
mod gathering;
mod imported;
mod input;
mod job;
mod laws;
mod opened;
mod ran;
mod results;
mod running;
mod shown;
mod sources;

pub use done::{Done, Evaluated};
pub use input::Input;
pub use job::Job;
pub use laws::{job_law, worked_examples};
pub use opened::open_among;
pub use ran::Ran;
pub use results::{NodeResults, PartResult, results_at};
pub use sources::input_of;
