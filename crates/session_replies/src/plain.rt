//! Replies that list what the caller has, and that to a cancellation.
ghost use Rattle.std.specs.Prelude.{◌≡◌, IfOk};
ghost use Rattle.reply_messages.specs.Forms.{IsRising};
ghost use Rattle.reply_messages.specs.declared.told.Told.TheVariants as tells;
ghost use Rattle.session_replies.specs.Spelling.{reply_spelling};
ghost use Rattle.session_replies.specs.Cancelled.{cancelling_told};

use core_tables::Cancelling;
use message_values::Refusal;
use pide_base::{ExecId, VersionId};
use reply_messages::{cancelled, idle, refused};
use std::alloc::{AllocError, Global};

/// The reply to a cancellation, by what it came to: that no such execution is assigned, that it was
/// finished or cancelled before, or that it is cancelled.
pub fn cancelling(alloc: Global, exec: ExecId, answer: Cancelling) -> Result<Vec<u8>, AllocError>
    ensures { IfOk result (λ bytes. bytes.items ≡ reply_spelling (cancelling_told exec answer)) }
{
    match answer {
        Cancelling::Unknown => refused(alloc, Refusal::UnknownExecution),
        Cancelling::Idle => idle(alloc, exec),
        Cancelling::Cancelled => cancelled(alloc, exec),
    }
}

/// The reply that a version is settled, with its stuck executions, rising.
pub fn settled(alloc: Global, version: VersionId, stuck: &[ExecId]) -> Result<Vec<u8>, AllocError>
    requires { IsRising stuck.now }
    ensures { IfOk result (λ bytes. bytes.items ≡ reply_spelling (tells.Settled version
        stuck.now)) }
{
    reply_messages::settled(alloc, version, stuck)
}
