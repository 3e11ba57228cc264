//! Snapshots: what a version shows of a node, and what is still to be worked on there.
//!
//! After the snapshots of Wenzel's PIDE (`Document.Snapshot` in Isabelle/Scala): the reports of the
//! parts that are finished, at the places of the version's text, moved by the edits that the editor
//! has made since. That empty ranges are left out is this project's own.
//!
//! It must not know how parts are worked on, messages, or how a text is cut into commands. Nothing
//! of a report is copied: what is shown lends it.
#![tactic(auto)]

mod content;
mod gather;
mod laws;
mod movable;
mod part;
mod pending;
mod shown;
mod take;

pub use content::{Snapshot, write_shown};
pub use gather::in_report_order;
pub use laws::shown_stays_treelike;
pub use movable::are_movable;
pub use part::AssignedPart;
pub use shown::Shown;
pub use take::snapshot;
