//! A session: what an editor asks of one document, answered by the editor's buffer and the prover's
//! core, with the list of all that has happened.
//!
//! The protocol is that of Wenzel, "Asynchronous User Interaction and Tool Integration in
//! Isabelle/PIDE" (ITP 2014); messages, refusals and replies are this project's own. Replies wait
//! in an outbox until the writer takes them, so a session knows no sink. It must not know of bytes
//! before they are messages, of ends that fail, or of threads.
#![tactic(auto)]

mod answering;
mod changing;
mod looking;
mod results;
mod sending;
mod session;
mod stepping;
mod table;
mod taking;
mod updating;
mod working;

pub use keeping_rules as keeping_rules_below;
pub use keeping_rules::session_replies_below as session_replies_below;
pub use prover_core::Finish;
pub use session::Session;
pub use taking::Taken;
pub use working::{Claim, GiveUp};
