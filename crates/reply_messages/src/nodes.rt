//! Replies about nodes: the markup of one, in a version or in a build.
ghost use Rattle.std.specs.Prelude.{◌≡◌, IfOk};
ghost use Rattle.byte_message.specs.Stream.{plain_spelling};
ghost use Rattle.reply_messages.specs.declared.told.Told.TheVariants.{Markup, Built};
ghost use Rattle.reply_messages.specs.Lent.{reports_of};
ghost use Rattle.reply_messages.specs.Replies.{reply_chunks};

use crate::chunk::{Chunk, flag_word};
use crate::message::spelled;
use crate::reply::Reports;
use pide_base::{ExecId, NodeName, VersionId};
use std::alloc::{AllocError, Global};

/// The reply that tells what is known of a node in the version.
pub fn markup<'a>(
    alloc: Global,
    version: VersionId,
    node: &'a NodeName,
    reports: Reports<'a>,
    pending: &'a [ExecId],
    outdated: bool,
) -> Result<Vec<u8>, AllocError>
    ensures { IfOk result (λ bytes. bytes.items ≡ plain_spelling (reply_chunks
        (Markup version node.now (reports_of reports.entry) pending.now outdated))) }
{
    spelled(
        alloc,
        &[
            Chunk::Word("markup"),
            Chunk::Number(version.number()),
            Chunk::Word(node.as_str()),
            Chunk::Reports(reports),
            Chunk::Execs(pending),
            Chunk::Word(flag_word(outdated)),
        ],
    )
}

/// The reply that tells what a node of a build reports.
pub fn built<'a>(
    alloc: Global,
    node: &'a NodeName,
    reports: Reports<'a>,
) -> Result<Vec<u8>, AllocError>
    ensures { IfOk result (λ bytes. bytes.items
        ≡ plain_spelling (reply_chunks (Built node.now (reports_of reports.entry)))) }
{
    spelled(
        alloc,
        &[
            Chunk::Word("built"),
            Chunk::Word(node.as_str()),
            Chunk::Reports(reports),
        ],
    )
}
