//! The reply to a snapshot.
ghost use Rattle.std.specs.Prelude.{◌≡◌, map, IfOk};
ghost use Rattle.snapshots.specs.Seen.{seen};
ghost use Rattle.snapshots.specs.Gathered.{gathered, AllMovable};
ghost use Rattle.reply_messages.specs.Forms.{IsRising};
ghost use Rattle.reply_messages.specs.declared.told.Told.TheVariants as tells;
ghost use Rattle.core_jobs.specs.Parts.{told_part};
ghost use Rattle.session_rules.specs.Replies.{is_outdated};
ghost use Rattle.session_rules.specs.Shown.{protocol_reports};
ghost use Rattle.session_replies.specs.Spelling.{reply_spelling};
ghost use Rattle.session_replies.specs.Marked.{shown_of, marked, AreMovable, assigned_part};

use core_jobs::{NodeResults, PartResult};
use message_values::Protocol;
use pide_base::{NodeName, VersionId};
use reply_messages::Reports;
use snapshots::{AssignedPart, Shown, Snapshot, snapshot};
use sqlite_items::Items;
use std::alloc::{AllocError, Global};
use symbol_markup::in_symbols;
use text_edits::Edit;

/// The reply to a snapshot of a version's node, from what came of its parts so far. `text` is the
/// node's text behind the edits. Where reports are in order already, and no edit disturbs it, time
/// is linear in them, and in the text where places count symbols.
pub fn markup<'a>(
    alloc: Global,
    protocol: Protocol,
    version: VersionId,
    node: &'a NodeName,
    text: &[char],
    edits: &[Edit],
    results: &'a NodeResults<'a>,
) -> Result<Vec<u8>, AllocError>
    requires movable { AreMovable edits.now (map told_part results.now.parts.items) }
    requires rising { IsRising results.now.pending.items }
    ensures { IfOk result (λ bytes. bytes.items ≡ reply_spelling (tells.Markup version node.now
        (marked protocol text.now edits.now (map told_part results.now.parts.items))
        results.now.pending.items (is_outdated edits.now))) }
{
    let shown = shown_parts(alloc, edits, &results.parts)?;
    let reports = told_reports(alloc, protocol, text, shown)?;
    let reports = Reports::Shown(&reports);
    let outdated = is_outdated(edits);
    reply_messages::markup(alloc, version, node, reports, &results.pending, outdated)
}

/// What is shown of the parts.
fn shown_parts<'a>(
    alloc: Global,
    edits: &[Edit],
    parts: &[PartResult<'a>],
) -> Result<Vec<Shown<'a>>, AllocError>
    requires { AreMovable edits.now (map told_part parts.now) }
    ensures { IfOk result (λ shown. map seen shown.items
        ≡ shown_of edits.now (map told_part parts.now)) }
{
    let parts = assigned_parts(alloc, parts)?;
    let Snapshot { reports, .. } = snapshot(alloc, parts.as_slice(), edits)?;
    Ok(reports)
}

/// The parts as a snapshot takes them.
fn assigned_parts<'a>(
    alloc: Global,
    parts: &[PartResult<'a>],
) -> Result<Items<AssignedPart<'a>>, AllocError>
    ensures { IfOk result (λ all. all ≡ map assigned_part parts.now) }
{
    let mut all = Items::new(alloc);
    'parts: for part in parts {
        all.push(assigned(part))?;
    }
    Ok(all)
}

/// A finished part as one that is assigned.
fn assigned<'a>(part: &PartResult<'a>) -> AssignedPart<'a>
    ensures { result ≡ assigned_part part.now }
{
    AssignedPart {
        exec: part.exec,
        span: part.span,
        reports: Some(part.reports),
    }
}

/// What is shown of the text, as the protocol tells it.
fn told_reports<'a>(
    alloc: Global,
    protocol: Protocol,
    text: &[char],
    shown: Vec<Shown<'a>>,
) -> Result<Vec<Shown<'a>>, AllocError>
    ensures { IfOk result (λ reports. map seen reports.items
        ≡ protocol_reports protocol text.now (map seen shown.entry.items)) }
{
    match protocol {
        Protocol::Scalars => Ok(shown),
        Protocol::Symbols => in_symbols(alloc, text, &shown),
    }
}

/// Whether there are pending edits.
fn is_outdated(edits: &[Edit]) -> bool
    ensures { result ≡ is_outdated edits.now }
{
    match edits {
        [] => false,
        [_, ..] => true,
    }
}
