//! What a run hands back.

use document_session::Session;
use language::Language;
use pide_base::Status;
use reply_outbox::Past;
use session_rules::{Entry, Service};

/// How a run ended, and the source, the sink and the session that it was given.
#[derive(Drop)]
pub struct Served<L: Language, P: Past<Service, Entry>, S, K> {
    /// How it ended.
    pub status: Status,
    /// The source, with what it has left.
    pub source: S,
    /// The sink, with what was written.
    pub sink: K,
    /// The session, after all that happened.
    pub session: Session<L, P>,
}
