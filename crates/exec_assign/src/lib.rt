//! What commands are assigned by an update: which executions are kept, which are new, and what the
//! new ones go by.
//!
//! Executions and their assignment are those of Wenzel, "Asynchronous User Interaction and Tool
//! Integration in Isabelle/PIDE" (ITP 2014); when one is kept is this project's own. The rules
//! stand in `exec_rules`, which know whole versions; here they are followed node by node, in the
//! order of imports. A node that an update leaves alone, and whose imports end as before, shares
//! its rows with the version before. It must not know of a language, of results or of workers.
#![tactic(auto)]

mod assigning;
mod cancelled;
mod evaluating;
mod fault;
mod given;
mod homes;
mod keeping;
mod keying;
mod laws;
mod listing;
mod printing;
mod same;
mod sharing;
mod told;
mod update;

pub use assigning::Assignment;
pub use cancelled::Cancelled;
pub use fault::AssignFault;
pub use laws::{cancelled_law, new_numbers_law};
pub use told::{ToldCommand, ToldNode};
pub use update::{ChangedBlobs, Update};
