//! Reading a reply.
ghost use Rattle.std.specs.Prelude.{◌≡◌, ◌<◌, length, drop, IfOk};
ghost use Rattle.reply_messages.specs.FoundReplies.{FindsOf, FindsReply, texts};

use crate::kind::ReplyKind;
use crate::replies::{
    assign, built, cancelled, claimed, dropped, idle, markup, protocol, refused, removed, report,
    settled, total,
};
use crate::told::Told;
use byte_message::Message;
use std::alloc::{AllocError, Global};

/// The reply whose chunks these are, or None where they are no reply's.
pub fn read_reply(alloc: Global, message: &Message) -> Result<Option<Told>, AllocError>
    ensures { IfOk result (λ found. FindsReply message.now found) }
{
    if message.count() == 0 {
        return Ok(None);
    }
    let Some(kind) = ReplyKind::named(message.chunk(0)) else {
        return Ok(None);
    };
    let arguments = arguments_of(alloc, message)?;
    reply_at(alloc, kind, arguments.as_slice())
}

/// The chunks behind the first.
fn arguments_of(alloc: Global, message: &Message) -> Result<Vec<&[u8]>, AllocError>
    requires { 0 < length message.now }
    ensures { IfOk result (λ arguments. texts arguments.items ≡ drop 1 message.now) }
{
    let mut arguments = Vec::new(alloc);
    'chunks: for number in 1..message.count() {
        arguments.push(message.chunk(number))?;
    }
    Ok(arguments)
}

/// The reply of this kind.
fn reply_at(alloc: Global, kind: ReplyKind, arguments: &[&[u8]]) -> Result<Option<Told>, AllocError>
    ensures { IfOk result (λ found. FindsOf kind (texts arguments.now) found) }
{
    match kind {
        ReplyKind::Assign => assign(alloc, arguments),
        ReplyKind::Markup => markup(alloc, arguments),
        ReplyKind::Cancelled => cancelled(alloc, arguments),
        ReplyKind::Idle => idle(alloc, arguments),
        ReplyKind::Removed => removed(alloc, arguments),
        ReplyKind::Settled => settled(alloc, arguments),
        ReplyKind::Protocol => Ok(protocol(arguments)),
        ReplyKind::Refused => Ok(refused(arguments)),
        ReplyKind::Claimed => Ok(claimed(arguments)),
        ReplyKind::Report => report(alloc, arguments),
        ReplyKind::Dropped => Ok(dropped(arguments)),
        ReplyKind::Built => built(alloc, arguments),
        ReplyKind::Total => Ok(total(arguments)),
    }
}
