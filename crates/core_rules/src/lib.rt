//! The rules of the document that editors and workers change: what it is after a list of events,
//! what can be worked on, which events may follow, and what all of it comes to when it is checked
//! from nothing.
//!
//! Versions, executions, their assignment and cancellation are those of Wenzel, "Asynchronous User
//! Interaction and Tool Integration in Isabelle/PIDE" (ITP 2014); when a part is ready, which is
//! taken first, and when a version is settled are this project's own. Everything is said of lists
//! of events, the newest first, and of any language. It must not know messages, threads, or how the
//! document is kept.
#![tactic(auto)]

mod event;
mod laws;
mod worked;

pub use event::Event;
pub use exec_rules as exec_rules_below;
pub use language as language_below;
pub use laws::{
    alone_law, cancelled_law, core_law, covers_law, first_law, holders_law, homes_law, places_law,
    rest_law, tip_law,
};
pub use worked::worked_examples;
