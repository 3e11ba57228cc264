//! What a run hands back.
use pide_base::Status;
use reply_outbox::Past;
use session_rules::{Entry, Service};
use thread_serve::document_session_below::Session;
use toplevel::Isar;

/// How a run ended, the source and sink that it was given, and its session, which lends the list of
/// what happened.
#[derive(Drop)]
pub struct Outcome<S, K, P: Past<Service, Entry>> {
    /// How it ended.
    pub status: Status,
    /// The source, with what it has left.
    pub source: S,
    /// The sink, with what was written.
    pub sink: K,
    /// The session, after all that happened; or the list that was given, still empty, where no
    /// session was begun.
    pub session: Result<Session<Isar, P>, P>,
}
