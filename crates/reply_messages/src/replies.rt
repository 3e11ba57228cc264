//! The replies of each kind, by what stands behind the kind's word.
ghost use Rattle.std.specs.Prelude.{IfOk};
ghost use Rattle.reply_messages.specs.declared.kind.ReplyKind.TheVariants.{Assign, Markup, Cancelled, Idle, Removed, Settled, Protocol, Refused, Claimed, Report, Dropped, Built, Total};
ghost use Rattle.reply_messages.specs.FoundReplies.{FindsOf, texts};

use crate::number::number_at;
use crate::read_chunk::{
    execs_at, flag_at, nodes_at, part_at, protocol_at, reports_at, versions_at, worker_at,
};
use crate::refusal::refusal_at;
use crate::told::Told;
use crate::words::Word;
use pide_base::{ExecId, NodeName, VersionId};
use std::alloc::{AllocError, Global};

pub(crate) fn assign(alloc: Global, arguments: &[&[u8]]) -> Result<Option<Told>, AllocError>
    ensures { IfOk result (λ found. FindsOf Assign (texts arguments.now) found) }
{
    let [version, nodes] = arguments else {
        return Ok(None);
    };
    let Some(version) = VersionId::told(alloc, version)? else {
        return Ok(None);
    };
    let Some(nodes) = nodes_at(alloc, nodes)? else {
        return Ok(None);
    };
    Ok(Some(Told::Assign { version, nodes }))
}

pub(crate) fn markup(alloc: Global, arguments: &[&[u8]]) -> Result<Option<Told>, AllocError>
    ensures { IfOk result (λ found. FindsOf Markup (texts arguments.now) found) }
{
    let [version, node, reports, pending, outdated] = arguments else {
        return Ok(None);
    };
    let Some(version) = VersionId::told(alloc, version)? else {
        return Ok(None);
    };
    let Some(node) = NodeName::told(alloc, node)? else {
        return Ok(None);
    };
    let Some(outdated) = flag_at(outdated) else {
        return Ok(None);
    };
    let Some(pending) = execs_at(alloc, pending)? else {
        return Ok(None);
    };
    let Some(reports) = reports_at(alloc, reports)? else {
        return Ok(None);
    };
    Ok(Some(Told::Markup {
        version,
        node,
        reports,
        pending,
        outdated,
    }))
}

pub(crate) fn cancelled(alloc: Global, arguments: &[&[u8]]) -> Result<Option<Told>, AllocError>
    ensures { IfOk result (λ found. FindsOf Cancelled (texts arguments.now) found) }
{
    let [exec] = arguments else {
        return Ok(None);
    };
    let Some(exec) = ExecId::told(alloc, exec)? else {
        return Ok(None);
    };
    Ok(Some(Told::Cancelled { exec }))
}

pub(crate) fn idle(alloc: Global, arguments: &[&[u8]]) -> Result<Option<Told>, AllocError>
    ensures { IfOk result (λ found. FindsOf Idle (texts arguments.now) found) }
{
    let [exec] = arguments else {
        return Ok(None);
    };
    let Some(exec) = ExecId::told(alloc, exec)? else {
        return Ok(None);
    };
    Ok(Some(Told::Idle { exec }))
}

pub(crate) fn removed(alloc: Global, arguments: &[&[u8]]) -> Result<Option<Told>, AllocError>
    ensures { IfOk result (λ found. FindsOf Removed (texts arguments.now) found) }
{
    let [versions] = arguments else {
        return Ok(None);
    };
    let Some(versions) = versions_at(alloc, versions)? else {
        return Ok(None);
    };
    Ok(Some(Told::Removed { versions }))
}

pub(crate) fn settled(alloc: Global, arguments: &[&[u8]]) -> Result<Option<Told>, AllocError>
    ensures { IfOk result (λ found. FindsOf Settled (texts arguments.now) found) }
{
    let [version, stuck] = arguments else {
        return Ok(None);
    };
    let Some(version) = VersionId::told(alloc, version)? else {
        return Ok(None);
    };
    let Some(stuck) = execs_at(alloc, stuck)? else {
        return Ok(None);
    };
    Ok(Some(Told::Settled { version, stuck }))
}

pub(crate) fn protocol(arguments: &[&[u8]]) -> Option<Told>
    ensures { FindsOf Protocol (texts arguments.now) result }
{
    let [number] = arguments else {
        return None;
    };
    let protocol = protocol_at(number)?;
    Some(Told::Protocol { protocol })
}

pub(crate) fn refused(arguments: &[&[u8]]) -> Option<Told>
    ensures { FindsOf Refused (texts arguments.now) result }
{
    let [number] = arguments else {
        return None;
    };
    let reason = refusal_at(number)?;
    Some(Told::Refused { reason })
}

pub(crate) fn claimed(arguments: &[&[u8]]) -> Option<Told>
    ensures { FindsOf Claimed (texts arguments.now) result }
{
    let [worker, exec, kind] = arguments else {
        return None;
    };
    let worker = worker_at(worker)?;
    let part = part_at(exec, kind)?;
    Some(Told::Claimed { worker, part })
}

pub(crate) fn report(alloc: Global, arguments: &[&[u8]]) -> Result<Option<Told>, AllocError>
    ensures { IfOk result (λ found. FindsOf Report (texts arguments.now) found) }
{
    let [exec, kind, reports] = arguments else {
        return Ok(None);
    };
    let Some(part) = part_at(exec, kind) else {
        return Ok(None);
    };
    let Some(reports) = reports_at(alloc, reports)? else {
        return Ok(None);
    };
    Ok(Some(Told::Report { part, reports }))
}

pub(crate) fn dropped(arguments: &[&[u8]]) -> Option<Told>
    ensures { FindsOf Dropped (texts arguments.now) result }
{
    let [exec, kind] = arguments else {
        return None;
    };
    let part = part_at(exec, kind)?;
    Some(Told::Dropped { part })
}

pub(crate) fn built(alloc: Global, arguments: &[&[u8]]) -> Result<Option<Told>, AllocError>
    ensures { IfOk result (λ found. FindsOf Built (texts arguments.now) found) }
{
    let [node, reports] = arguments else {
        return Ok(None);
    };
    let Some(node) = NodeName::told(alloc, node)? else {
        return Ok(None);
    };
    let Some(reports) = reports_at(alloc, reports)? else {
        return Ok(None);
    };
    Ok(Some(Told::Built { node, reports }))
}

pub(crate) fn total(arguments: &[&[u8]]) -> Option<Told>
    ensures { FindsOf Total (texts arguments.now) result }
{
    let [nodes, errors] = arguments else {
        return None;
    };
    let nodes = number_at(nodes)?;
    let errors = number_at(errors)?;
    Some(Told::Total { nodes, errors })
}
