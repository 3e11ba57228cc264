//! Serving the messages of a source over a session of the whole document, in threads: a source, a
//! sink and a session in; a status out, with these three after all that was done.
//!
//! The calling thread reads and answers messages, and helps where one waits; workers and a writer
//! have threads of their own. Each of them takes turns at the session (`locked`): the reader
//! answers messages, workers claim and end parts, and the writer takes what is replied. Each turn
//! is a call of the session's, or two where the reader works while a message waits, and adds one
//! item at most; `Crew` and `Writer` are what loops of workers and of the writer ask, each by a
//! turn.
//!
//! All of it is this project's own. It must not know the real streams, the words of the command
//! line, or how a document is kept; turns must not know what runs between them.
#![tactic(auto)]

mod answering;
mod claiming;
mod closing;
mod crew;
mod ending;
mod finishing;
mod laws;
mod listening;
mod locked;
mod looking;
mod reader;
mod reading;
mod reading_turns;
mod rest;
mod run;
mod sending;
mod served;
mod status;
mod taking;
mod together;
mod watching;
mod working;
mod writer;

pub use claiming::{ClaimTurn, Claiming};
pub use crew::Crew;
pub use document_serve as document_serve_below;
pub use document_session as document_session_below;
pub use ending::{FinishTurn, GiveUpTurn};
pub use locked::Locked;
pub use looking::{EndTurn, LookTurn};
pub use run::serve;
pub use sending::{LoseTurn, SendTurn, Sending};
pub use served::Served;
pub use taking::{TakeTurn, Taking};
pub use writer::Writer;
