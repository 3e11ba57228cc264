//! Replies of a word and a number.
ghost use Rattle.std.specs.Prelude.{◌≡◌, IfOk};
ghost use Rattle.byte_message.specs.Stream.{plain_spelling};
ghost use Rattle.reply_messages.specs.declared.told.Told.TheVariants as tells;
ghost use Rattle.reply_messages.specs.Replies.{reply_chunks};

use crate::message::numbered;
use message_values::{Protocol, Refusal};
use pide_base::ExecId;
use std::alloc::{AllocError, Global};

/// The reply that the execution is cancelled.
pub fn cancelled(alloc: Global, exec: ExecId) -> Result<Vec<u8>, AllocError>
    ensures { IfOk result
        (λ bytes. bytes.items ≡ plain_spelling (reply_chunks (tells.Cancelled exec))) }
{
    numbered(alloc, "cancelled", exec.number())
}

/// The reply that the execution was finished, or cancelled before.
pub fn idle(alloc: Global, exec: ExecId) -> Result<Vec<u8>, AllocError>
    ensures { IfOk result
        (λ bytes. bytes.items ≡ plain_spelling (reply_chunks (tells.Idle exec))) }
{
    numbered(alloc, "idle", exec.number())
}

/// The reply that the session goes by the protocol.
pub fn protocol(alloc: Global, protocol: Protocol) -> Result<Vec<u8>, AllocError>
    ensures { IfOk result
        (λ bytes. bytes.items ≡ plain_spelling (reply_chunks (tells.Protocol protocol))) }
{
    numbered(alloc, "protocol", protocol.number())
}

/// The reply that the message was refused for this reason.
pub fn refused(alloc: Global, reason: Refusal) -> Result<Vec<u8>, AllocError>
    ensures { IfOk result
        (λ bytes. bytes.items ≡ plain_spelling (reply_chunks (tells.Refused reason))) }
{
    numbered(alloc, "refused", reason.number())
}
