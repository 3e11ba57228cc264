//! The proof that is suggested for a goal, searched and written out, and the edit that puts it in.
//!
//! Which proof that is, and how it is written, is told in `suggest_rules`: the first that a bounded
//! search finds, which goes through the rules of natural deduction (Gentzen 1935) in a fixed order.
//! It must not know of theories, commands or documents.
#![tactic(auto)]

mod citing;
mod eliminations;
mod inserting;
mod laws;
mod naming;
mod search;
mod suggesting;
mod text;

pub use inserting::edit;
pub use laws::suggestion_law;
pub use suggesting::suggest;
pub use text::{by_text, print_term};
