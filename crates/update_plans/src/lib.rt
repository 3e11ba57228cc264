//! What an update will do to the tables of executions and of tasks, worked out before it happens.
//!
//! Executions are those of Wenzel, "Asynchronous User Interaction and Tool Integration in
//! Isabelle/PIDE" (ITP 2014); what is worked out of them ahead is this project's own. Two versions
//! stand beside each other, the one before and the one that an update makes of it: which executions
//! are dropped, which evaluations may be seen otherwise, and what the new ones begin with. A node
//! that is marked as standing is not looked at. It must not know of a language, of workers, or of
//! what has happened before.
#![tactic(auto)]

mod beginning;
mod beside;
mod cancelled;
mod dropping;
mod hiding;
mod known;
mod marking;
mod outcome;
mod seeing;
mod sources;
mod steps;

pub use beginning::{Fresh, new_executions};
pub use cancelled::CancelledOf;
pub use dropping::dropped;
pub use known::Known;
pub use marking::untouched;
pub use seeing::{Sight, sights};
pub use steps::{Steps, work_out};
