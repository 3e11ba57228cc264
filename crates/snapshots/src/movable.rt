//! Whether ranges can be moved and converted, for callers that do not know it.
ghost use Rattle.std.specs.Prelude.{◌≡◌, ◌<◌, ◌^◌, ◌↔◌, IsTrue};
ghost use Rattle.std.specs.List.{AllByRecursion};
ghost use Rattle.text_edits.specs.Offsets.{later, convert, ConvertsBelow};
ghost use Rattle.snapshots.specs.Gathered.{reported, Movable, AllMovable};

use crate::part::AssignedPart;
use report_markup::Report;
use text_edits::{Edit, convert};

/// Whether the place after so many scalars were put in at `start` fits its type.
fn fits_later(start: usize, count: usize, place: usize) -> bool
    ensures { IsTrue result ↔ (later start count place < 2 ^ 64) }
{
    place < start || place <= usize::MAX - count
}

/// Whether the place after the edit fits its type.
fn fits_after(edit: &Edit, place: usize) -> bool
    ensures { IsTrue result ↔ (convert edit.now place < 2 ^ 64) }
{
    match edit {
        Edit::Insert { start, text } => fits_later(*start, text.len(), place),
        Edit::Remove { .. } => true,
    }
}

/// Whether each number fits its type that a place has on its way through the edits.
fn fits_through(edits: &[Edit], place: usize) -> bool
    ensures { IsTrue result ↔ ConvertsBelow (2 ^ 64) edits.now place }
{
    let mut place = place;
    for edit in edits {
        if !fits_after(edit, place) {
            return false;
        }
        place = convert(edit, place);
    }
    true
}

/// Whether the report's range can be moved on to `place` and then through the edits.
fn is_movable(edits: &[Edit], place: usize, report: &Report) -> bool
    ensures { IsTrue result ↔ Movable edits.now place report.now }
{
    let start = report.range.start;
    let stop = report.range.stop;
    if start > usize::MAX - place || stop > usize::MAX - place {
        return false;
    }
    fits_through(edits, place + start) && fits_through(edits, place + stop)
}

/// Whether all of a command's reports can be.
fn all_movable(edits: &[Edit], place: usize, reports: &[Report]) -> bool
    ensures { IsTrue result ↔ AllByRecursion (Movable edits.now place) reports.now }
{
    for report in reports {
        if !is_movable(edits, place, report) {
            return false;
        }
    }
    true
}

/// Whether what the parts report can be moved to the places of the text and through the edits, as
/// `snapshot` asks: each number on the way fits its type.
pub fn are_movable(parts: &[AssignedPart<'_>], edits: &[Edit]) -> bool
    ensures { IsTrue result ↔ AllMovable edits.now parts.now }
{
    for part in parts {
        if let Some(reports) = part.reports {
            if !all_movable(edits, part.span.start, reports) {
                return false;
            }
        }
    }
    true
}
