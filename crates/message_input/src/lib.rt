//! The messages of an input: pulled from a source piece by piece, cut, and answered one after the
//! other, to the input's end.
//!
//! Whoever answers them hands in an [`Answering`]; this project's own. It must not know what
//! messages ask, how they are answered, where replies go, or threads.
#![tactic(auto)]

mod answering;
mod input;
mod piece;

pub use answering::{Answering, Halt};
pub use input::answer_input;
