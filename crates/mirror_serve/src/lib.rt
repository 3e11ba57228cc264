//! Serving the messages of a source on one thread, with an editor's mirror: what is asked of
//! versions is told by what the mirror knows, which hears nothing but the messages and their
//! replies.
//!
//! The session answers all else, and its list has what the mirror answered at its place. The
//! editor's side is after the session of Isabelle/PIDE (Wenzel, ITP 2014); the rest is this
//! project's own. It must not know the real streams, the words of the command line, how a document
//! is kept or what is known of one, or threads.
#![tactic(auto)]

mod answering;
mod ear;
mod laws;
mod look;
mod markup;
mod mirrored;
mod noting;
mod run;

pub use run::serve;
