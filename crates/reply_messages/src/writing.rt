//! Writing replies.
ghost use Rattle.std.specs.Prelude.{◌≡◌, IfOk};
ghost use Rattle.byte_message.specs.Stream.{plain_spelling};
ghost use Rattle.reply_messages.specs.Forms.{IsForm};
ghost use Rattle.reply_messages.specs.Lent.{told_reply};
ghost use Rattle.reply_messages.specs.Replies.{reply_chunks};

use crate::nodes::{built, markup};
use crate::numbers::{cancelled, idle, protocol as protocol_told, refused};
use crate::parts::{claimed, dropped, report};
use crate::reply::Reply;
use crate::total::total;
use crate::versions::{assign, removed, settled};
use std::alloc::{AllocError, Global};

/// The bytes of the reply: a byte message whose chunks may have any length. They are written into
/// one text, which grows by doubling; then the header line is put before them.
pub fn write(alloc: Global, reply: &Reply<'_>) -> Result<Vec<u8>, AllocError>
    requires { IsForm (told_reply reply.now) }
    ensures { IfOk result (λ bytes. bytes.items ≡ plain_spelling (reply_chunks (told_reply
        reply.now))) }
{
    match *reply {
        Reply::Assign { version, nodes } => assign(alloc, version, nodes),
        Reply::Markup {
            version,
            node,
            reports,
            pending,
            outdated,
        } => markup(alloc, version, node, reports, pending, outdated),
        Reply::Cancelled { exec } => cancelled(alloc, exec),
        Reply::Idle { exec } => idle(alloc, exec),
        Reply::Removed { versions } => removed(alloc, versions),
        Reply::Settled { version, stuck } => settled(alloc, version, stuck),
        Reply::Protocol { protocol } => protocol_told(alloc, protocol),
        Reply::Refused { reason } => refused(alloc, reason),
        Reply::Claimed { worker, part } => claimed(alloc, worker, part),
        Reply::Report { part, reports } => report(alloc, part, reports),
        Reply::Dropped { part } => dropped(alloc, part),
        Reply::Built { node, reports } => built(alloc, node, reports),
        Reply::Total { nodes, errors } => total(alloc, nodes, errors),
    }
}
