//! What a session is: which messages are refused, what the others make of the document, which
//! histories are legal, and what is replied. And what holds of all such histories: what is shown,
//! reported and covered in each, that it depends on texts and not on ids, that one thread has one
//! way, and that two updates and a settle of the second's version come to the same in whatever
//! order parts were worked on, and by whom.
//!
//! A history is the list of what happened, after the protocol of Wenzel, "Asynchronous User
//! Interaction and Tool Integration in Isabelle/PIDE" (ITP 2014); its entries, the refusals and the
//! replies are this project's own. The rules are functions of whole histories, for every language.
//! There is no code here. Rules and laws must not know of bytes before they are messages, of ends
//! that fail, of threads, or what keeps a history.
#![tactic(auto)]

mod entry;
mod history_laws;
mod laws;
mod service;
mod settling;

pub use entry::Entry;
pub use history_laws::{alone_law, headline_law, holders_law, reports_law, texts_law};
pub use laws::{events_law, worked_examples};
pub use service::Service;
pub use settling::settled_law;
