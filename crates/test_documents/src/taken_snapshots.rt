//! Snapshots of assigned parts under pending edits (`snapshots`).
use crate::queued::id;
use crate::readable::put_readable;
use pide_base::{ExecId, Range};
use report_markup::Report;
use script_lines::{Fault, place};
use snapshots::{AssignedPart, Shown, Snapshot, are_movable, snapshot, write_shown};
use sqlite_items::Items;
use std::alloc::{AllocError, Global};
use text_edits::{Edit, Text};

/// A part: its execution, its command's span, and its reports once it is finished.
#[derive(Drop)]
struct Drawn {
    exec: ExecId,
    span: Range,
    reports: Option<Vec<Report>>,
}

/// The parts that a snapshot is taken of, and the pending edits.
#[derive(Drop)]
pub(crate) struct Taking {
    parts: Vec<Drawn>,
    edits: Vec<Edit>,
}

fn part(drawn: &Drawn) -> AssignedPart<'_> {
    AssignedPart {
        exec: drawn.exec,
        span: drawn.span,
        reports: match &drawn.reports {
            Some(reports) => Some(reports.as_slice()),
            None => None,
        },
    }
}

fn parts(alloc: Global, drawn: &[Drawn]) -> Result<Items<AssignedPart<'_>>, AllocError> {
    let mut parts = Items::new(alloc);
    for one in drawn {
        parts.push(part(one))?;
    }
    Ok(parts)
}

/// Writes what is shown.
pub(crate) fn put_all_shown(
    alloc: Global,
    shown: &[Shown<'_>],
    out: &mut String,
) -> Result<(), AllocError> {
    let mut yxml = String::new(alloc);
    write_shown(&mut yxml, shown)?;
    put_readable(out, yxml.as_str())
}

/// The pending executions, and whether the snapshot is outdated.
fn put_rest(snapshot: &Snapshot<'_>, out: &mut String) -> Result<(), AllocError> {
    for exec in &snapshot.pending {
        write!(out, "{} ", exec.number())?;
    }
    out.push_str(if snapshot.outdated { "outdated" } else { "" })
}

/// What a snapshot of the parts shows, or the rest of it.
fn put_taken(
    alloc: Global,
    parts: &[AssignedPart<'_>],
    edits: &[Edit],
    is_rest: bool,
    out: &mut String,
) -> Result<(), Fault> {
    if !are_movable(parts, edits) {
        return Ok(out.push_str("not movable")?);
    }
    let snapshot = snapshot(alloc, parts, edits)?;
    if is_rest {
        return Ok(put_rest(&snapshot, out)?);
    }
    Ok(put_all_shown(alloc, snapshot.reports.as_slice(), out)?)
}

impl Taking {
    pub(crate) fn new(alloc: Global) -> Taking {
        Taking {
            parts: Vec::new(alloc),
            edits: Vec::new(alloc),
        }
    }

    /// A part more.
    pub(crate) fn add(
        &mut self,
        exec: u64,
        span: Range,
        reports: Option<Vec<Report>>,
    ) -> Result<(), Fault> {
        let exec = id(exec)?;
        Ok(
            self.parts.push(Drawn {
                exec,
                span,
                reports,
            })?,
        )
    }

    /// A pending edit more.
    pub(crate) fn edit(&mut self, alloc: Global, verb: &str, words: &[&str]) -> Result<(), Fault> {
        let [start, text] = words else {
            return Err(Fault::Line);
        };
        let start = place(*start)?;
        let text = Text::from_str(alloc, *text)?;
        Ok(
            self.edits.push(match verb {
                "insert" => Edit::Insert { start, text },
                _ => Edit::Remove { start, text },
            })?,
        )
    }

    /// What is shown.
    pub(crate) fn put_shown(&self, alloc: Global, out: &mut String) -> Result<(), Fault> {
        let parts = parts(alloc, &self.parts)?;
        put_taken(alloc, parts.as_slice(), &self.edits, false, out)
    }

    /// The pending executions, and whether the snapshot is outdated.
    pub(crate) fn put_pending(&self, alloc: Global, out: &mut String) -> Result<(), Fault> {
        let parts = parts(alloc, &self.parts)?;
        put_taken(alloc, parts.as_slice(), &self.edits, true, out)
    }
}
