//! A lock whose state keeps a history: callers in any number of threads take turns at one state,
//! and what each of them is told fits one list of entries. It is this project's own; the queue is
//! the ticket lock's.
//!
//! A caller carries a pass, which in proofs knows all that the caller has seen of the history and
//! the entries that are the caller's own. The lock must not know what a state or an entry is:
//! `State` and `Turn` say all that it uses.
#![tactic(auto)]

mod calls;
mod ends;
mod entrance;
mod event_count;
mod listeners;
mod news;
mod pass;
mod queue;
mod rule;
mod shared;
mod state;
mod steps;
mod view;

pub use news::{News, Role};
pub use pass::Pass;
pub use shared::Shared;
pub use state::{State, Turn};
pub use view::{Joined, View};
