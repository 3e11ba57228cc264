//! Chunks of replies.
ghost use Rattle.std.specs.Prelude.{[], ◌∷◌, decimal, IfOk};
ghost use Rattle.std.specs.List.{AllByRecursion};
ghost use Rattle.pide_base.specs.Ids.{IsId};
ghost use Rattle.message_values.specs.Protocols.{protocol_number};
ghost use Rattle.message_values.specs.Refusals.{refusal_number};
ghost use Rattle.message_values.specs.Workers.{IsWorker};
ghost use Rattle.reply_messages.specs.Replies.{part_word, flag_word, ids_chunk, nodes_chunk, reports_chunk};
ghost use Rattle.reply_messages.specs.Fits.{AreRisingIds, FitsNode, FitsPart, FitsReport, IsAny};
ghost use Rattle.reply_messages.specs.Found.{Finds};
ghost use Rattle.reply_messages.specs.FoundReplies.{part_chunks};

use crate::list::all_of;
use crate::number::number_at;
use crate::rising::{execs_rise, versions_rise};
use crate::told::NodeRows;
use message_values::{Protocol, Refusal, Worker};
use pide_base::{ExecId, Part, PartKind, VersionId};
use report_markup::Report;
use sqlite_items::Items;
use std::alloc::{AllocError, Global};

/// The truth value: `1` or `0`.
pub(crate) fn flag_at(chunk: &[u8]) -> Option<bool>
    ensures { Finds flag_word IsAny chunk.now result }
{
    if chunk == "1".as_bytes() {
        Some(true)
    } else if chunk == "0".as_bytes() {
        Some(false)
    } else {
        None
    }
}

/// The part of an execution whose word this is.
fn part_kind_at(chunk: &[u8]) -> Option<PartKind>
    ensures { Finds part_word IsAny chunk.now result }
{
    if chunk == "eval".as_bytes() {
        Some(PartKind::Eval)
    } else if chunk == "fork".as_bytes() {
        Some(PartKind::Fork)
    } else if chunk == "print".as_bytes() {
        Some(PartKind::Print)
    } else {
        None
    }
}

/// The execution of this number.
pub(crate) fn exec_at(chunk: &[u8]) -> Option<ExecId>
    ensures { Finds decimal IsId chunk.now result }
{
    let Some(number) = number_at(chunk) else {
        return None;
    };
    ExecId::new(number)
}

/// The part of these chunks: its execution and its word.
pub(crate) fn part_at(exec: &[u8], kind: &[u8]) -> Option<Part>
    ensures { Finds part_chunks FitsPart (exec.now ∷ kind.now ∷ []) result }
{
    let Some(exec) = exec_at(exec) else {
        return None;
    };
    let Some(kind) = part_kind_at(kind) else {
        return None;
    };
    Some(Part { exec, kind })
}

/// The protocol of this number.
pub(crate) fn protocol_at(chunk: &[u8]) -> Option<Protocol>
    ensures { Finds (λ protocol. decimal (protocol_number protocol)) IsAny chunk.now result }
{
    Protocol::new(number_at(chunk)?)
}

/// The worker of this number.
pub(crate) fn worker_at(chunk: &[u8]) -> Option<Worker>
    ensures { Finds decimal IsWorker chunk.now result }
{
    Worker::new(number_at(chunk)?)
}

/// The versions of a list that rises, as data.
pub(crate) fn versions_at(
    alloc: Global,
    chunk: &[u8],
) -> Result<Option<Items<VersionId>>, AllocError>
    ensures { IfOk result (λ found. Finds ids_chunk AreRisingIds chunk.now found) }
{
    let Some(versions) = all_of(alloc, chunk)? else {
        return Ok(None);
    };
    if versions_rise(versions.as_slice()) {
        Ok(Some(versions))
    } else {
        Ok(None)
    }
}

/// The executions of a list that rises, as data.
pub(crate) fn execs_at(alloc: Global, chunk: &[u8]) -> Result<Option<Items<ExecId>>, AllocError>
    ensures { IfOk result (λ found. Finds ids_chunk AreRisingIds chunk.now found) }
{
    let Some(execs) = all_of(alloc, chunk)? else {
        return Ok(None);
    };
    if execs_rise(execs.as_slice()) {
        Ok(Some(execs))
    } else {
        Ok(None)
    }
}

/// The nodes of a list, as data.
pub(crate) fn nodes_at(alloc: Global, chunk: &[u8]) -> Result<Option<Items<NodeRows>>, AllocError>
    ensures { IfOk result (λ found. Finds nodes_chunk (AllByRecursion FitsNode) chunk.now found) }
{
    all_of(alloc, chunk)
}

/// The reports, one after the other.
pub(crate) fn reports_at(alloc: Global, chunk: &[u8]) -> Result<Option<Items<Report>>, AllocError>
    ensures { IfOk result (λ found.
        Finds reports_chunk (AllByRecursion FitsReport) chunk.now found) }
{
    all_of(alloc, chunk)
}
