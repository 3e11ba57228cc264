//! Reports: what a command has to say of a range of its source, their order, and their YXML;
//! reports that come in parts, put in this order, in which only a report and itself are equal; and
//! markup trees, of reports whose ranges are equal, nested or disjoint.
//!
//! Reports and trees are after the markup of PIDE (Wenzel, "Asynchronous User Interaction and Tool
//! Integration in Isabelle/PIDE", ITP 2014). The kinds, their properties and the order are this
//! project's own. Contracts see a tree as the list of its reports; beneath lies a weight-balanced
//! search tree whose forks know how far their reports reach (interval trees: Cormen, Leiserson,
//! Rivest, Stein, Introduction to Algorithms, 2009). The crate knows no command, no state and no
//! version: an offset is handed to it.
#![tactic(auto)]

mod balance;
mod bounds;
mod compared;
mod element;
mod kind;
mod laws;
mod markup;
mod placing;
mod plain_text;
mod property;
mod ranges;
mod report;
mod search;
mod sorting;
mod tree;
mod tree_laws;

pub use compared::compare_at;
pub use element::{write_report, write_reports};
pub use kind::ReportKind;
pub use laws::one_order;
pub use markup::{AddError, MarkupTree};
pub use plain_text::{PlainText, is_plain};
pub use property::{Property, PropertyKey};
pub use ranges::{are_treelike, moved_range};
pub use report::Report;
pub use sorting::{in_order, sorted};
pub use tree_laws::{crossing_law, standing_law};
