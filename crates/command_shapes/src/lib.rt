//! The shapes of commands: what a command says, read off its tokens.
//!
//! Commands are after Isabelle's Isar (Wenzel 1999); their words and shapes are this project's own,
//! and are those of `isar_rules`. Each name and each quoted text is copied from the source; a
//! header is read once more for the number of its imports. It must not know of states, of formulas
//! or of who works on a command.
#![tactic(auto)]

mod forms;
mod header;
mod shaping;
mod verbs;
mod word;

pub use shaping::{begins_by, shape_of};
