//! The editor's document: the texts, perspectives and blobs that its updates make, the commands of
//! each text and their ids, and why an update is refused.
//!
//! Documents of nodes with edits and perspectives, and commands that keep their ids, are those of
//! Wenzel, "Asynchronous User Interaction and Tool Integration in Isabelle/PIDE" (ITP 2014); which
//! ids an update keeps, the limits and the refusals are this project's own. The rules are functions
//! of whole texts and whole documents. They must not know of executions, versions' ids, languages
//! or replies.
#![tactic(auto)]

mod laws;
mod sheet;

pub use laws::{edits_law, ids_law, kept_law, worked_examples};
pub use sheet::{Document, Sheet};
