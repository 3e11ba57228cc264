//! What calls answer, as texts.
use crate::desk::{Left, Updated};
use crate::plain::{Checked, Said};
use core_tables::{Cancelling, Removing};
use exec_assign::{ToldCommand, ToldNode};
use pide_base::{ExecId, Part, PartKind};
use prover_core::{NodeResults, PartResult, Settled};
use report_markup::{Report, ReportKind};
use std::alloc::AllocError;

fn put_ids(out: &mut String, ids: &[ExecId]) -> Result<(), AllocError> {
    for id in ids {
        write!(out, " {}", id.number())?;
    }
    Ok(())
}

/// A command's id, and behind a colon its evaluation, with its print behind a comma.
fn put_command(out: &mut String, told: &ToldCommand) -> Result<(), AllocError> {
    write!(out, " {}", told.command.number())?;
    let Some(row) = told.row else { return Ok(()) };
    write!(out, ":{}", row.evaluation.number())?;
    match row.print {
        Some(print) => write!(out, ",{}", print.number()),
        None => Ok(()),
    }
}

fn put_node(out: &mut String, told: &ToldNode) -> Result<(), AllocError> {
    out.push_str(told.node.as_str())?;
    for command in told.commands.as_slice() {
        put_command(out, command)?;
    }
    out.push_str("; ")
}

fn put_nodes(out: &mut String, nodes: &[ToldNode]) -> Result<(), AllocError> {
    for node in nodes {
        put_node(out, node)?;
    }
    Ok(())
}

/// The nodes that are told with their commands, or why there is no version.
pub(crate) fn put_update(out: &mut String, updated: &Updated) -> Result<(), AllocError> {
    match updated {
        Updated::Late => out.push_str("late"),
        Updated::Refused(refusal) => write!(out, "refused {}", refusal.number()),
        Updated::Told(nodes) => put_nodes(out, nodes),
    }
}

fn word(kind: PartKind) -> &'static str {
    match kind {
        PartKind::Eval => "eval",
        PartKind::Fork => "fork",
        PartKind::Print => "print",
    }
}

/// These words, and a part.
fn put_part(out: &mut String, words: &str, part: &Part) -> Result<(), AllocError> {
    let exec = part.exec.number();
    let kind = word(part.kind);
    write!(out, "{words} {exec} {kind}")
}

/// The part that is claimed.
pub(crate) fn put_claim(out: &mut String, claimed: &Option<Part>) -> Result<(), AllocError> {
    match claimed {
        Some(part) => put_part(out, "claimed", part),
        None => out.push_str("nothing"),
    }
}

/// What became of the part that is held.
pub(crate) fn put_left(out: &mut String, left: &Left) -> Result<(), AllocError> {
    match left {
        Left::Finished(part) => put_part(out, "finished", part),
        Left::Dropped(part) => put_part(out, "dropped", part),
        Left::GoesOn(part) => put_part(out, "goes on", part),
        Left::Nothing => out.push_str("holds nothing"),
    }
}

pub(crate) fn put_cancel(
    out: &mut String,
    cancelled: &Option<Cancelling>,
) -> Result<(), AllocError> {
    out.push_str(match cancelled {
        Some(Cancelling::Cancelled) => "cancelled",
        Some(Cancelling::Idle) => "idle",
        Some(Cancelling::Unknown) => "unknown",
        None => "ended",
    })
}

pub(crate) fn put_remove(out: &mut String, removed: &Option<Removing>) -> Result<(), AllocError> {
    match removed {
        Some(Removing::Removed) => out.push_str("removed"),
        Some(Removing::Tip) => out.push_str("tip"),
        Some(Removing::Unknown(id)) => write!(out, "unknown {}", id.number()),
        None => out.push_str("ended"),
    }
}

/// The stuck executions, or a part that is left.
pub(crate) fn put_settled(out: &mut String, settled: &Settled) -> Result<(), AllocError> {
    match settled {
        Settled::Unknown => out.push_str("unknown"),
        Settled::Left(part) => put_part(out, "left", part),
        Settled::Settled(stuck) => {
            out.push_str("settled")?;
            put_ids(out, stuck)
        }
    }
}

/// What marks a part's kind behind its execution's number.
fn mark(report: &Report) -> &'static str {
    match report.kind {
        ReportKind::Proved => " fork",
        ReportKind::State => " print",
        _ => "",
    }
}

fn put_result(out: &mut String, part: &PartResult<'_>) -> Result<(), AllocError> {
    write!(out, "{}", part.exec.number())?;
    if let Some(report) = part.reports.first() {
        out.push_str(mark(report))?;
    }
    out.push_str("; ")
}

/// Whether a part has the report that is said.
fn is_said(part: &PartResult<'_>, said: &Said) -> bool {
    match part.reports {
        [report] => {
            part.span.start == said.start
                && report.kind == said.report.kind
                && report.text.as_str() == said.report.text.as_str()
        }
        _ => false,
    }
}

/// Whether the parts are among those that are said, in their order.
fn are_among(parts: &[PartResult<'_>], said: &[Said]) -> bool {
    let mut rest = parts;
    for one in said {
        if let [part, more @ ..] = rest {
            if is_said(part, one) {
                rest = more;
            }
        }
    }
    rest.is_empty()
}

/// How what is shown of a node stands to what is reported of it from nothing.
#[derive(Clone, Copy)]
pub(crate) enum Shown {
    /// It is all of that.
    All,
    /// It is a part of that.
    Some,
    /// There is something else.
    Other,
}

pub(crate) fn how_shown(parts: &[PartResult<'_>], all: &Checked) -> Shown {
    if !are_among(parts, &all.said) {
        Shown::Other
    } else if parts.len() < all.said.len() {
        Shown::Some
    } else {
        Shown::All
    }
}

fn of_shown(shown: Shown) -> &'static str {
    match shown {
        Shown::All => "all",
        Shown::Some => "some",
        Shown::Other => "something else",
    }
}

fn put_results_of(out: &mut String, parts: &[PartResult<'_>]) -> Result<(), AllocError> {
    for part in parts {
        put_result(out, part)?;
    }
    Ok(())
}

/// The finished parts of a node, how they stand to what is reported of it from nothing, and the
/// executions that are pending.
pub(crate) fn put_results(
    out: &mut String,
    results: &NodeResults<'_>,
    all: &Checked,
) -> Result<(), AllocError> {
    put_results_of(out, &results.parts)?;
    out.push_str(of_shown(how_shown(&results.parts, all)))?;
    if results.pending.is_empty() {
        return Ok(());
    }
    out.push_str("; pending")?;
    put_ids(out, &results.pending)
}
