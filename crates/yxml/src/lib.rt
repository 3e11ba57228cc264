//! XML as trees of elements and texts, and YXML, the compact form of it in which Isabelle's
//! processes exchange trees.
//!
//! The trees are those of Isabelle's `XML.tree`, and what is written is that of its `YXML` (The
//! Isabelle System Manual, "YXML"): bytes 5 and 6 mark up, and everything else stands for itself. A
//! normal body is one that has a spelling. How other bytes are read, the faults and the limit of
//! 200 nested elements are this project's own. The crate knows nothing of what bodies mean.
#![tactic(auto)]

mod builder;
mod cut;
mod fault;
mod laws;
mod reading;
mod tag;
mod tree;
mod tree_laws;
mod writing;
mod xml_name;
mod xml_string;

pub use fault::YxmlFault;
pub use laws::{each_text_has_one_answer, what_is_written_is_read_back};
pub use reading::{MAX_DEPTH, parse_body};
pub use tree::{Attribute, Body, Tree};
pub use tree_laws::{marks_of_joined_bodies, marks_tell_the_body};
pub use writing::write_body;
pub use xml_name::XmlName;
pub use xml_string::XmlString;
