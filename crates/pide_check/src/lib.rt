//! Checking the text of a source: all its bytes are read and decoded (UTF-8: the Unicode Standard,
//! table 3-7), and its markup is written by lines to a sink.
//!
//! It is this project's own. It must not know which language the text is in, nor the real streams.
#![tactic(auto)]

mod check;
mod input;
mod lines;
mod reading;

pub use check::check_text;
pub use input::Input;
pub use reading::read_text;
