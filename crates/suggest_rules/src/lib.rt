//! Which proof is suggested for a goal, and how it is written: the first that a bounded search
//! finds, which goes through the rules of natural deduction in a fixed order.
//!
//! The rules are Gentzen's (1935); suggestions as prints are after Wenzel, "Asynchronous User
//! Interaction and Tool Integration in Isabelle/PIDE" (ITP 2014); the order of the search, its
//! bounds and the names are this project's own. To know what is suggested, read `specs/Names.antt`,
//! `specs/Search.antt` and `specs/TermText.antt`. It must not know of theories, commands or texts
//! of documents.
#![tactic(auto)]

mod laws;
mod names;

pub use laws::worked_suggestions;
pub use names::Names;
