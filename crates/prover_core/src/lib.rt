//! The prover's side of the document: it keeps the live versions with what is assigned in them, how
//! far each execution is, and the tasks; it hands out jobs and takes in what comes of them.
//!
//! It is told by all that has happened, a list of events that no memory is used for: what it keeps
//! is what `core_rules` says of that list. It must not know messages, threads, or how a text is
//! cut.
#![tactic(auto)]

mod adding;
mod cancelling;
mod changing;
mod claiming;
mod finishing;
mod following;
mod forgetting;
mod laws;
mod looking;
mod plan;
mod planning;
mod prover;
mod removing;
mod results;
mod settling;
mod spare;
mod table;
mod updating;

pub use claiming::Claim;
pub use core_jobs::{NodeResults, PartResult};
pub use finishing::{Finish, GiveUp};
pub use plan::Plan;
pub use planning::PlanFault;
pub use prover::Core;
pub use settling::Settled;
