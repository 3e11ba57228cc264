//! Lists of what has happened that proofs alone can read: nothing is kept of them. This project's
//! own. It must not know what an item is.
#![tactic(auto)]

mod ghost_list;

pub use ghost_list::GhostList;
