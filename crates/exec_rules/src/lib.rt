//! The rules by which commands are given executions: which of them an update keeps, which it makes
//! anew, and what a new one goes by.
//!
//! Executions and their assignment are those of Wenzel, "Asynchronous User Interaction and Tool
//! Integration in Isabelle/PIDE" (ITP 2014); when one is kept is this project's own. The rules are
//! a fold over the nodes of a version in the order of imports, and know whole versions; laws say
//! them in other words, and examples compute them. They must not know of a language, of results or
//! of workers.
#![tactic(auto)]

mod home;
mod key;
mod laws;
mod row;
mod version;

pub use home::{Head, Home, Input};
pub use key::{Key, Last};
pub use laws::{kept_law, key_law, numbers_law, rows_law, worked_examples};
pub use row::{Assigned, Row};
pub use version::{Blobs, Version};
