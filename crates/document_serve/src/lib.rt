//! Serving the messages of a source over a session of the whole document, on one thread: a source,
//! a sink and a session in; a status out, with the session and the sink after all that was done.
//!
//! A session that is served by no workers works where a settle waits, and one that follows a script
//! also as its messages tell workers to; this project's own. It must not know the real streams, the
//! words of the command line, how a document is kept, or threads.
#![tactic(auto)]

mod alone;
mod laws;
mod listening;
mod run;
mod served;
mod serving;
mod working;
mod writing;

pub use listening::Listener;
pub use run::serve;
pub use served::Served;
pub use serving::serve_message;
pub use writing::write_out;
