//! Replies, made and written to a sink.
ghost use Rattle.std.specs.Prelude.{◌≡◌, ◌≤◌, OnOk, IfOk, IfErr, ℕ};
ghost use Rattle.std.specs.List.{flat_map, sum_by};
ghost use Rattle.std.specs.Io.KnownBytes.{Appends};
ghost use Rattle.pide_base.specs.Moves.{AppendsFront};
ghost use Rattle.reply_messages.specs.Forms.{IsForm};
ghost use Rattle.reply_messages.specs.Lent.{told_reply};
ghost use Rattle.message_input.specs.Counts.{CountsSo};
ghost use Rattle.pide_build.specs.Replies.{errors_of, node_reply, spelled, tells_error};
ghost use Rattle.pide_build.specs.Telling.{bytes_of};

use crate::telling::{BuiltNode, Telling};
use message_input::Halt;
use pide_base::{Sink, push_whole};
use reply_messages::{Reply, Reports, write};
use report_markup::{Report, ReportKind};
use sqlite_items::Items;
use std::alloc::{AllocError, Global};

/// The reply of a node.
#[derive(Drop)]
pub(crate) struct NodeReply {
    /// Its bytes.
    pub bytes: Items<u8>,
    /// How many errors it tells.
    pub errors: usize,
}

/// Tells of each node its reply.
pub(crate) struct InReplies;

impl Telling for InReplies {
    ghost use Rattle.pide_build.specs.Telling.{reply_of};

    type Told = NodeReply;

    ghost told = { reply_of };

    fn tell(&self, alloc: Global, built: BuiltNode) -> Result<NodeReply, AllocError> {
        let errors = errors_of(&built);
        let bytes = node_reply(alloc, &built);
        drop(built);
        let bytes = Items::from_vec(bytes?);
        Ok(NodeReply { bytes, errors })
    }
}

/// Whether a report tells an error.
fn tells_error(report: &Report) -> bool
    ensures { result ≡ tells_error report.now.kind }
{
    report.kind == ReportKind::Error
}

/// How many of a node's reports tell an error.
fn errors_of(built: &BuiltNode) -> usize
    ensures { result ≡ errors_of built.now }
{
    let mut count = 0;
    'reports: for report in built.reports.as_slice() {
        if tells_error(report) {
            count += 1;
        }
    }
    count
}

/// The bytes of a node's reply.
fn node_reply(alloc: Global, built: &BuiltNode) -> Result<Vec<u8>, AllocError>
    ensures { IfOk result (λ bytes. bytes.items ≡ node_reply built.now) }
{
    let reports = Reports::Own(built.reports.as_slice());
    reply_messages::built(alloc, &built.node, reports)
}

/// Writes bytes. Where the sink fails, a front of them is written.
fn push_bytes<K: Sink>(sink: &mut K, bytes: &[u8]) -> Result<(), Halt>
    ensures ok { OnOk result (Appends (K.contents sink.old) (K.contents sink.new) bytes.now) }
    ensures front { AppendsFront (K.contents sink.old) (K.contents sink.new) bytes.now }
    ensures steady { K.faults sink.old ≤ K.faults sink.new }
    ensures counts { IfErr result (λ halt. CountsSo halt (K.faults sink.old)
        (K.faults sink.new)) }
{
    if push_whole(sink, bytes) {
        Ok(())
    } else {
        Err(Halt::WriteFault)
    }
}

/// Writes a reply. Where it halts, a front of the reply is written.
pub(crate) fn push_reply<K: Sink>(
    alloc: Global,
    sink: &mut K,
    reply: &Reply<'_>,
) -> Result<(), Halt>
    requires { IsForm (told_reply reply.now) }
    ensures ok { OnOk result
        (Appends (K.contents sink.old) (K.contents sink.new) (spelled (told_reply reply.now))) }
    ensures front { AppendsFront (K.contents sink.old) (K.contents sink.new)
        (spelled (told_reply reply.now)) }
    ensures steady { K.faults sink.old ≤ K.faults sink.new }
    ensures counts { IfErr result (λ halt. CountsSo halt (K.faults sink.old)
        (K.faults sink.new)) }
{
    let bytes = write(alloc, reply)?;
    push_bytes(sink, &bytes)
}

/// Writes the reply of each node. Where the sink fails, a front of them is written.
fn push_nodes<K: Sink>(sink: &mut K, all: &[NodeReply]) -> Result<(), Halt>
    ensures ok { OnOk result (Appends (K.contents sink.old) (K.contents sink.new)
        (flat_map (λ reply. reply.bytes) all.now)) }
    ensures front { AppendsFront (K.contents sink.old) (K.contents sink.new)
        (flat_map (λ reply. reply.bytes) all.now) }
    ensures steady { K.faults sink.old ≤ K.faults sink.new }
    ensures counts { IfErr result (λ halt. CountsSo halt (K.faults sink.old)
        (K.faults sink.new)) }
{
    let mut rest = all;
    'nodes: while let [reply, more @ ..] = rest {
        push_bytes(sink, reply.bytes.as_slice())?;
        rest = more;
    }
    Ok(())
}

/// How many errors the replies tell. More than can be counted don't fit in memory.
fn errors_in(all: &[NodeReply]) -> Result<u64, AllocError>
    ensures { IfOk result (λ count. count ≡ sum_by (λ reply. reply.errors) all.now) }
{
    let mut count: u64 = 0;
    let mut rest = all;
    'nodes: while let [reply, more @ ..] = rest {
        let Some(sum) = count.checked_add(reply.errors as u64) else {
            return Err(AllocError);
        };
        count = sum;
        rest = more;
    }
    Ok(count)
}

/// Writes the replies of all nodes, and then how many there are, and how many errors. Where it
/// halts, a front of this is written.
pub(crate) fn push_replies<K: Sink>(
    alloc: Global,
    sink: &mut K,
    all: &[NodeReply],
) -> Result<(), Halt>
    ensures ok { OnOk result
        (Appends (K.contents sink.old) (K.contents sink.new) (bytes_of all.now)) }
    ensures front { AppendsFront (K.contents sink.old) (K.contents sink.new)
        (bytes_of all.now) }
    ensures steady { K.faults sink.old ≤ K.faults sink.new }
    ensures counts { IfErr result (λ halt. CountsSo halt (K.faults sink.old)
        (K.faults sink.new)) }
{
    let nodes = all.len() as u64;
    let errors = errors_in(all)?;
    push_nodes(sink, all)?;
    push_reply(alloc, sink, &Reply::Total { nodes, errors })
}
