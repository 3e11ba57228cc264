//! What an editor's message asks, or why it is refused whatever the document is.
//!
//! The functions, their arguments and the order of the reasons are this project's own; data is read
//! as Isabelle's XML encoding in YXML. The crate must not know versions, texts or executions, nor
//! how a reply is written.
#![tactic(auto)]

mod arguments;
mod error;
mod functions;
mod reading;

pub use error::ReadError;
pub use reading::read;
