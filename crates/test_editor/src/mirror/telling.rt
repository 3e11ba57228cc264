//! What calls answer, as texts.
use byte_message::FrameFault;
use mirror_rules::MirrorFault;
use pide_base::ExecId;
use pide_mirror::{LookError, MirrorError};
use report_markup::Property;
use script_lines::{Answer, Fault};
use snapshots::{Shown, Snapshot};
use std::alloc::AllocError;

/// How many replies were made whole, or the fault.
pub(crate) fn put_heard(out: &mut String, heard: Result<usize, MirrorError>) -> Answer {
    match heard {
        Ok(count) => Ok(write!(out, "{count}")?),
        Err(MirrorError::Fault(fault)) => put_fault(out, Some(fault)),
        Err(MirrorError::NoMemory) => Err(Fault::NoMemory),
    }
}

/// The fault, and its place.
pub(crate) fn put_fault(out: &mut String, fault: Option<MirrorFault>) -> Answer {
    Ok(match fault {
        None => out.push_str("no fault"),
        Some(MirrorFault::Unexpected { at }) => write!(out, "unexpected at {at}"),
        Some(MirrorFault::Frame(fault)) => put_frame_fault(out, fault),
    }?)
}

fn put_frame_fault(out: &mut String, fault: FrameFault) -> Result<(), AllocError> {
    match fault {
        FrameFault::BadHeader { at } => write!(out, "bad header at {at}"),
        FrameFault::TooMany { at, count } => write!(out, "{count} chunks at {at}"),
        FrameFault::TooLong { at, chunk } => write!(out, "chunk {chunk} too long at {at}"),
    }
}

/// What is seen, or why nothing is.
pub(crate) fn put_look(out: &mut String, look: Result<Snapshot<'_>, LookError>) -> Answer {
    match look {
        Ok(shot) => Ok(put_snapshot(out, &shot)?),
        Err(LookError::Refused(refusal)) => Ok(write!(out, "refused {}", refusal.number())?),
        Err(LookError::Fault(fault)) => put_fault(out, Some(fault)),
        Err(LookError::NoMemory) => Err(Fault::NoMemory),
    }
}

/// The reports with their ranges, the executions that are pending, and whether there are edits.
fn put_snapshot(out: &mut String, shot: &Snapshot<'_>) -> Result<(), AllocError> {
    for shown in &shot.reports {
        put_shown(out, shown)?;
    }
    put_pending(out, shot.pending.as_slice())?;
    out.push_str(if shot.outdated { "; outdated" } else { "" })
}

fn put_shown(out: &mut String, shown: &Shown<'_>) -> Result<(), AllocError> {
    let (start, stop) = (shown.range.start, shown.range.stop);
    write!(out, "{start}-{stop} {}", shown.report.kind.word())?;
    for property in shown.report.properties.as_slice() {
        put_property(out, property)?;
    }
    put_text(out, shown.report.text.as_str())?;
    out.push_str("; ")
}

/// The text of a report, where there is one.
fn put_text(out: &mut String, text: &str) -> Result<(), AllocError> {
    if text.is_empty() {
        return Ok(());
    }
    write!(out, ": {text}")
}

fn put_property(out: &mut String, property: &Property) -> Result<(), AllocError> {
    write!(out, " {}={}", property.key.word(), property.value.as_str())
}

fn put_pending(out: &mut String, pending: &[ExecId]) -> Result<(), AllocError> {
    if pending.is_empty() {
        return out.push_str("nothing pending");
    }
    out.push_str("pending")?;
    for exec in pending {
        write!(out, " {}", exec.number())?;
    }
    Ok(())
}
