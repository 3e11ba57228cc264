//! Chunks of a reply, and how each is written.
ghost use Rattle.std.specs.Prelude.{◌≡◌, ◌++◌, OnOk, string_bytes, decimal};
ghost use Rattle.reply_messages.specs.Chunks.{chunk_bytes};
ghost use Rattle.reply_messages.specs.Replies.{part_word, flag_word};

use crate::data::{put_ids, put_nodes, put_reports, put_versions};
use crate::reply::{AssignedNode, Reports};
use itoa::Buffer;
use pide_base::{ExecId, PartKind, VersionId};
use std::alloc::AllocError;

/// A chunk of a reply.
#[derive(Clone, Copy)]
pub enum Chunk<'a> {
    /// A word or a name.
    Word(&'a str),
    /// A number, in decimal.
    Number(u64),
    /// A list of executions.
    Execs(&'a [ExecId]),
    /// A list of versions.
    Versions(&'a [VersionId]),
    /// A list of nodes with their rows.
    Nodes(&'a [AssignedNode<'a>]),
    /// Reports, one after the other.
    Reports(Reports<'a>),
}

/// The word of a part of an execution.
pub(crate) fn part_word(kind: PartKind) -> &'static str
    ensures { result.now ≡ part_word kind }
{
    match kind {
        PartKind::Eval => "eval",
        PartKind::Fork => "fork",
        PartKind::Print => "print",
    }
}

/// `1` or `0`.
pub(crate) fn flag_word(flag: bool) -> &'static str
    ensures { result.now ≡ flag_word flag }
{
    if flag { "1" } else { "0" }
}

/// Adds a number in decimal.
pub(crate) fn put_number(out: &mut String, number: u64) -> Result<(), AllocError>
    ensures { OnOk result (string_bytes out.new ≡ string_bytes out.old ++ decimal number) }
{
    let mut buffer = Buffer::new();
    out.push_str(buffer.format(number))
}

/// Adds the chunk's bytes. For want of memory some of them may have been added.
pub(crate) fn put_chunk(out: &mut String, chunk: &Chunk<'_>) -> Result<(), AllocError>
    ensures { OnOk result (string_bytes out.new ≡ string_bytes out.old ++ chunk_bytes chunk.now) }
{
    match *chunk {
        Chunk::Word(word) => out.push_str(word),
        Chunk::Number(number) => put_number(out, number),
        Chunk::Execs(execs) => put_ids(out, execs),
        Chunk::Versions(versions) => put_versions(out, versions),
        Chunk::Nodes(nodes) => put_nodes(out, nodes),
        Chunk::Reports(reports) => put_reports(out, reports),
    }
}
