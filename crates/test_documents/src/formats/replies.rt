//! Replies as they are written, and which chunks are replies (`reply_messages`, `reply_messages`).
use crate::formats::messages::first_message;
use crate::formats::shown::{put_bytes, yxml_of};
use crate::formats::told_replies;
use byte_message::Message;
use message_values::{Protocol, Refusal, Worker};
use pide_base::{ExecId, Part, PartKind, VersionId};
use reply_messages::{AssignedNode, Reply, Reports, read_reply, write};
use script_lines::{Answer, Call, Fault, say};
use snapshots::Shown;
use std::alloc::{AllocError, Global};

/// Answers whether bytes `are` a reply, with their YXML shown as XML; or how a reply is written.
pub(crate) fn answer(alloc: Global, out: &mut String, call: &Call<'_>) -> Answer {
    match call.verb {
        "are" => is_reply(alloc, out, message_of(alloc, call.word(0)?)),
        "cancelled" | "idle" => of_exec(alloc, out, call.verb, exec_of(call.number(0)?)?),
        "protocol" | "refused" => fixed(alloc, out, call.verb),
        "claimed" => claimed(
            alloc,
            out,
            worker_of(call.number(0)?)?,
            fork_of(call.number(1)?)?,
        ),
        "dropped" | "report" => of_part(alloc, out, call.verb, fork_of(call.number(0)?)?),
        "total" => total(alloc, out, call.number(0)?, call.number(1)?),
        verb => told_replies::answer(alloc, out, verb),
    }
}

/// The message that the bytes are.
fn message_of(alloc: Global, shown: &str) -> Result<Message, Fault> {
    let bytes = yxml_of(alloc, shown)?;
    first_message(alloc, bytes.as_bytes())
}

/// Answers whether the message is a reply.
fn is_reply(alloc: Global, out: &mut String, message: Result<Message, Fault>) -> Answer {
    let message = message?;
    let reply = read_reply(alloc, &message);
    drop(message);
    let reply = reply?;
    let is_reply = reply.is_some();
    drop(reply);
    say(out, if is_reply { "a reply" } else { "no reply" })
}

/// The bytes of a reply.
pub(crate) type Written = Result<Vec<u8>, AllocError>;

/// Answers the bytes of a reply.
pub(crate) fn put(out: &mut String, bytes: Written) -> Answer {
    let bytes = bytes?;
    Ok(put_bytes(out, bytes.as_slice())?)
}

/// The execution of this number.
fn exec_of(number: u64) -> Result<ExecId, Fault> {
    match ExecId::new(number) {
        Some(exec) => Ok(exec),
        None => Err(Fault::Line),
    }
}

/// The worker of this number.
fn worker_of(number: u64) -> Result<Worker, Fault> {
    match Worker::new(number) {
        Some(worker) => Ok(worker),
        None => Err(Fault::Line),
    }
}

/// The fork of the execution of this number.
fn fork_of(number: u64) -> Result<Part, Fault> {
    Ok(Part {
        exec: exec_of(number)?,
        kind: PartKind::Fork,
    })
}

/// Whether there is nothing that a reply may lend. Each function that makes a reply asks so of empty
/// lists, since its proof knows no other types than those that it names.
pub(crate) fn lends_nothing(
    nodes: &[AssignedNode<'_>],
    versions: &[VersionId],
    shown: &[Shown<'_>],
    reports: Reports<'_>,
) -> bool {
    nodes.is_empty()
        && versions.is_empty()
        && shown.is_empty()
        && matches!(reports, Reports::Own(own) if own.is_empty())
}

/// Answers how a reply of an execution is written.
fn of_exec(alloc: Global, out: &mut String, verb: &str, exec: ExecId) -> Answer {
    if !lends_nothing(&[], &[], &[], Reports::Own(&[])) {
        return Err(Fault::Line);
    }
    match verb {
        "cancelled" => put(out, write(alloc, &Reply::Cancelled { exec })),
        _ => put(out, write(alloc, &Reply::Idle { exec })),
    }
}

/// Answers how the protocol of symbols, or the refusal of a limit, is written.
fn fixed(alloc: Global, out: &mut String, verb: &str) -> Answer {
    if !lends_nothing(&[], &[], &[], Reports::Own(&[])) {
        return Err(Fault::Line);
    }
    let protocol = Protocol::Symbols;
    let reason = Refusal::Limit;
    match verb {
        "protocol" => put(out, write(alloc, &Reply::Protocol { protocol })),
        _ => put(out, write(alloc, &Reply::Refused { reason })),
    }
}

/// Answers how a claim is written.
fn claimed(alloc: Global, out: &mut String, worker: Worker, part: Part) -> Answer {
    if !lends_nothing(&[], &[], &[], Reports::Own(&[])) {
        return Err(Fault::Line);
    }
    put(out, write(alloc, &Reply::Claimed { worker, part }))
}

/// Answers how a reply of a part, which has no reports, is written.
fn of_part(alloc: Global, out: &mut String, verb: &str, part: Part) -> Answer {
    if !lends_nothing(&[], &[], &[], Reports::Own(&[])) {
        return Err(Fault::Line);
    }
    let reports = Reports::Own(&[]);
    match verb {
        "dropped" => put(out, write(alloc, &Reply::Dropped { part })),
        _ => put(out, write(alloc, &Reply::Report { part, reports })),
    }
}

/// Answers how the numbers of a build are written.
fn total(alloc: Global, out: &mut String, nodes: u64, errors: u64) -> Answer {
    if !lends_nothing(&[], &[], &[], Reports::Own(&[])) {
        return Err(Fault::Line);
    }
    put(out, write(alloc, &Reply::Total { nodes, errors }))
}
