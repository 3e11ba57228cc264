//! Checking one text from nothing: its commands one after the other, and what they report, a line
//! each.
//!
//! A text is checked as a theory of its own, as a batch run of Isabelle checks one (the Isabelle
//! System manual, "isabelle process"); the form of the lines is this project's own. The language is
//! any; the text is the only node of its document, so each import is bad. It must not know of
//! executions, versions, workers or files.
#![tactic(auto)]

mod heading;
mod laws;
mod line;
mod markup;

pub use laws::worked_examples;
pub use line::write_line;
pub use markup::markup_of;
