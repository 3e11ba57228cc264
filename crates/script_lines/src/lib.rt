//! Scripts of calls: a line of words for each call, and a line that is written in answer to it.
//!
//! It must not know what the calls are.
#![tactic(auto)]

mod answers;
mod call;
mod fault;
mod joining;
mod random;
mod words;

pub use answers::{Answer, Script, answered, say, say_whether};
pub use call::Call;
pub use fault::Fault;
pub use joining::{joined, once};
pub use random::{below, next_of};
pub use words::{lent, number, place, range, words_of};
