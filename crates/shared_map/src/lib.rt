//! A persistent ordered map, and a persistent list that grows at its front: a copy takes constant
//! time and shares everything with its source, and a change shares all but one path with what was
//! before it, so old versions stay.
//!
//! Contracts see a map as the list of its pairs, sorted by key. Beneath it lies a list without
//! order in a tree that is balanced by height (Adelson-Velsky and Landis 1962), joined as in
//! Blelloch, Ferizovic and Sun 2016. No contract speaks of balance. It must not know what its keys
//! and values are, nor threads.
#![tactic(auto)]

mod balance;
mod change;
mod cut;
mod entries;
mod items;
mod list;
mod map;
mod search;
mod tree;

pub use cut::{Cut, Exactly};
pub use entries::Entries;
pub use items::ListItems;
pub use list::SharedList;
pub use map::{InsertError, SharedMap};
