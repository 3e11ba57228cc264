//! The command language at work: how a node begins, what each command makes of a state, the check
//! of the proof behind a command that forks, and what is printed.
//!
//! Commands are after Isabelle's Isar (Wenzel 1999), forked proofs and prints after Wenzel,
//! "Asynchronous User Interaction and Tool Integration in Isabelle/PIDE" (ITP 2014); all that is
//! answered is what `isar_rules` says. A state shares with the state before it all that its
//! command leaves. It must not know of documents, executions or workers.
#![tactic(auto)]

mod acting;
mod forking;
mod isar;
mod made;
mod printing;
mod starting;
mod stepping;
mod tokens;

pub use isar::Isar;
