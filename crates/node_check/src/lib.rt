//! Checking one node: its text is cut, and its commands are run one after the other, each in the
//! state behind the one before it: what they report, and the state behind the last.
//!
//! So a batch run of Isabelle checks a theory (the Isabelle System manual, "isabelle process"). The
//! language is any. It must not know of executions, versions or workers, nor of other nodes.
#![tactic(auto)]

mod commands;
mod never;
mod node;

pub use commands::{NodeRun, run_commands};
pub use node::{check_node, command_places};
