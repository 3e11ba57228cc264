//! Made documents: so many theories with their lemmas, as the messages that make them and the bytes
//! of these messages; and the summary of one: what is counted of it, from nothing by the rules or
//! from what a session tells of it, and its lines.
//!
//! The texts, the two updates and the settle that make them, and the summary are this project's
//! own. It must not know who answers messages or serves the session, nor where the lines go.
#![tactic(auto)]

mod bodies;
mod bytes;
mod executions;
mod summary;
mod tally;
mod texts;

pub use bytes::made_bytes;
pub use executions::greatest_execution;
pub use summary::Summary;
pub use tally::Tally;
