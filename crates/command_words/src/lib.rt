//! The words of the command line: what they ask the program for.
//!
//! `clap` cuts them and judges them; which commands there are, and their options, is this project's
//! own. It must not know what the commands do.
#![tactic(auto)]

mod command;
mod laws;
mod number;
mod request;

pub use command::asked;
pub use laws::{every_form_is_taken, other_words};
pub use request::Request;
