//! What an editor knows of a document that a prover checks, by the messages that it sent and the
//! replies that it heard: versions, executions and reports, whether a command forks (as its words
//! and its reports tell, without its state), which replies are unexpected, and what of a node is
//! shown.
//!
//! The editor's side is after the session and the snapshots of Isabelle/PIDE, proofs that are
//! checked apart after its asynchronous proofs (Wenzel, ITP 2014); the rules are this project's
//! own. They are a fold of messages and replies, and must not know of a session's history, nor what
//! a language makes of commands.
#![tactic(auto)]

mod fault;
mod fork_cases;
mod forking;
mod worked;

pub use fault::MirrorFault;
pub use fork_cases::worked_forks;
pub use forking::may_fork;
pub use worked::worked_cases;
