//! The program's one call: the words of the command line, a source, a sink and an empty list in; a
//! status, and what has happened, out.
//!
//! It is this project's own. It must not know the real streams, nor how messages are served or
//! texts checked.
#![tactic(auto)]

mod laws;
mod made;
mod outcome;
mod program;
mod running;

pub use laws::one_outcome_law;
pub use outcome::Outcome;
pub use program::pide;
