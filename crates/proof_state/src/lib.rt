//! The state of a proof in the language of Isar (Wenzel 1999): levels of blocks and, while a goal
//! is open, that goal; and what each proof command makes of it. Which subgoals a goal has, and when
//! one of them fits what is shown, is this project's own.
//!
//! A copy takes constant time, and a command shares all that it does not change, so that the state
//! before each command can be kept. It must not know text, proof terms or who checks them.
#![tactic(auto)]

mod around;
mod block;
mod closing;
mod commands;
mod describe;
mod facts;
mod fault;
mod fits;
mod frame;
mod fresh;
mod laws;
mod levels;
mod local_fact;
mod locals;
mod proof;
mod same;
mod subgoal;
mod variables;

pub use fault::ProofFault;
pub use laws::{kept_law, one_description, same_law, worth_law};
pub use proof::Proof;
