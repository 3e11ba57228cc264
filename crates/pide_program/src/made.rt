//! Made documents: a session over memory answers the messages that make one, and the summary of what
//! it comes to is written.

mod counting;
mod generating;
mod serving;
mod swallow;

pub(crate) use generating::generate;
