//! A round of tasks that don't wait for one another, done by an owner and by thieves, each of them
//! once.
//!
//! All tasks stand in a deque before the round begins. Its owner takes them at the front, and so do
//! the thieves, each in a thread of its own, until it is empty; then what each of them made is
//! gathered. The deque is a work-stealing one of `crossbeam_deque`; what its callers know of one
//! another is this project's own. It must not know what a task does.
#![tactic(auto)]

mod gathering;
mod hand;
mod ordering;
mod owner;
mod running;
mod tasks;
mod thieves;

pub use ordering::Round;
pub use running::run_round;
pub use tasks::Tasks;
