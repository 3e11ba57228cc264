//! What those see of a session who take turns at it: the reader, workers and a writer. Each of them
//! knows the items that it made itself.
//!
//! A list is read oldest item first; this project's own. There is no code here. The laws must not
//! know how turns are taken, what keeps a session, or who runs in which thread.
#![tactic(auto)]

mod handing;
mod laws;
mod working;

pub use handing::{handed_law, waiting_law};
pub use laws::{list_law, owners_law, reader_law, worked_examples};
pub use working::{holders_law, works_law};
