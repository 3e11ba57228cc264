//! What is reported of the proof behind a command that forks: that it was checked, with what the
//! names that it cites mean; or its first fault.
//!
//! Forked proofs are after Wenzel, "Asynchronous User Interaction and Tool Integration in
//! Isabelle/PIDE" (ITP 2014); the reports are those of `isar_rules`. The check of a term alone asks
//! whether to stop. It must not know of the sources of other commands, of documents or of workers.
#![tactic(auto)]

mod citing;
mod forking;

pub use forking::{forked_at, given};
