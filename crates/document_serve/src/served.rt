//! What a run hands back.

use document_session::Session;
use language::Language;
use pide_base::Status;
use reply_outbox::Past;
use session_rules::{Entry, Service};

/// How a run ended, and the session and the sink that it was given.
#[derive(Drop)]
pub struct Served<L: Language, P: Past<Service, Entry>, K> {
    /// How it ended.
    pub status: Status,
    /// The session, after all that happened.
    pub session: Session<L, P>,
    /// The sink, with what was written.
    pub sink: K,
}
