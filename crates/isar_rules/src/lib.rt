//! The rules of the command language: what each command makes of the state before it, why it is
//! refused, what is reported of it, and what is printed behind it.
//!
//! Commands of theories and proofs are after Isabelle's Isar (Wenzel 1999), and proofs are checked
//! behind the commands as in Wenzel, "Asynchronous User Interaction and Tool Integration in
//! Isabelle/PIDE" (ITP 2014); which commands there are, their faults and reports are this project's
//! own. The rules are functions of a command's source and the state. They must not know of
//! documents, executions or workers.
#![tactic(auto)]

mod laws;
mod shape;
mod state;
mod verb;

pub use laws::{refused_law, tidy_law, worked_examples};
pub use shape::{Shape, Spot};
pub use state::{Given, Place, State, Theory};
pub use verb::Verb;
