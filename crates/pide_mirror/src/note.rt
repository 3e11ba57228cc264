//! What a mirror notes.
use byte_message::FrameFault;
use message_values::{EditorMessage, Refusal};
use reply_messages::Told;

/// What was sent, as it is read: what it asks, or why it is refused.
pub type Read = Result<EditorMessage, Refusal>;

/// What a mirror has sent or heard once. Nothing is kept of it but for proofs.
#[derive(Drop)]
pub enum Note {
    /// A message was sent.
    Sent(Read),
    /// A whole message was heard that begins at a place, with the reply that it is, if it is one.
    Heard { at: u64, reply: Option<Told> },
    /// What was heard went wrong in a message's line.
    Broken(FrameFault),
}
