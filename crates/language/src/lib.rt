//! What a language of commands is: how a node begins, what a command makes of a state, what is
//! worked on behind it, and what is printed.
//!
//! Evaluations, forked proofs and prints are those of Wenzel, "Asynchronous User Interaction and
//! Tool Integration in Isabelle/PIDE" (ITP 2014); the trait is this project's own. A language is
//! told to proofs by one record of functions, so that what is checked from nothing can be said of
//! any. It must not know of executions, versions or workers.
#![tactic(auto)]

mod answer;
mod language;
mod made;

pub use answer::Answer;
pub use language::Language;
pub use made::{Imported, Imports, Made};
