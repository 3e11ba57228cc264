//! What holds of the nodes that an update makes: the ids of their commands, and where these
//! stand.
//!
//! Commands that keep their ids are those of Wenzel, "Asynchronous User Interaction and Tool
//! Integration in Isabelle/PIDE" (ITP 2014); which keep them is this project's own. There is no
//! code here. The laws must not know of executions, languages or messages.
#![tactic(auto)]

mod laws;

pub use buffer_rules as buffer_rules_below;
pub use laws::{bare_law, fits_law, header_law, known_law, names_law, numbers_law, places_law};
