//! Replies about versions: what a new one assigns, which are removed, and which is settled.
ghost use Rattle.std.specs.Prelude.{◌≡◌, IfOk, map};
ghost use Rattle.byte_message.specs.Stream.{plain_spelling};
ghost use Rattle.reply_messages.specs.declared.told.Told.TheVariants.{Assign, Removed, Settled};
ghost use Rattle.reply_messages.specs.Lent.{rows_of};
ghost use Rattle.reply_messages.specs.Replies.{reply_chunks};

use crate::chunk::Chunk;
use crate::message::spelled;
use crate::reply::AssignedNode;
use pide_base::{ExecId, VersionId};
use std::alloc::{AllocError, Global};

/// The reply that tells what the version assigns.
pub fn assign<'a>(
    alloc: Global,
    version: VersionId,
    nodes: &'a [AssignedNode<'a>],
) -> Result<Vec<u8>, AllocError>
    ensures { IfOk result (λ bytes. bytes.items
        ≡ plain_spelling (reply_chunks (Assign version (map rows_of nodes.now)))) }
{
    spelled(
        alloc,
        &[
            Chunk::Word("assign"),
            Chunk::Number(version.number()),
            Chunk::Nodes(nodes),
        ],
    )
}

/// The reply that the versions are removed.
pub fn removed(alloc: Global, versions: &[VersionId]) -> Result<Vec<u8>, AllocError>
    ensures { IfOk result
        (λ bytes. bytes.items ≡ plain_spelling (reply_chunks (Removed versions.now))) }
{
    spelled(alloc, &[Chunk::Word("removed"), Chunk::Versions(versions)])
}

/// The reply that the version is settled, with its stuck executions.
pub fn settled(alloc: Global, version: VersionId, stuck: &[ExecId]) -> Result<Vec<u8>, AllocError>
    ensures { IfOk result
        (λ bytes. bytes.items ≡ plain_spelling (reply_chunks (Settled version stuck.now))) }
{
    spelled(
        alloc,
        &[
            Chunk::Word("settled"),
            Chunk::Number(version.number()),
            Chunk::Execs(stuck),
        ],
    )
}
