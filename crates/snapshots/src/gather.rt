//! The reports of a node's parts, at the ranges where they are shown.
ghost use Rattle.std.specs.Prelude.{◌≡◌, ◌++◌, ◌≤◌, ◌<◌, ◌^◌, ℕ, List, map, length, IfOk, OnOk, take, drop};
ghost use Rattle.std.specs.List.{sum_by, AllByRecursion};
ghost use Rattle.std.specs.List.Sorted.{IsPermutation};
ghost use Rattle.report_markup.specs.declared.report.Report.{Report};
ghost use Rattle.report_markup.specs.Ranges.{moved};
ghost use Rattle.report_markup.specs.Sorting.{ordered_reports};
ghost use Rattle.snapshots.specs.Seen.{seen, CountsSame};
ghost use Rattle.snapshots.specs.Converted.{left_range, left_by, Fits};
ghost use Rattle.snapshots.specs.Gathered.{reported, snapshot_reports, Movable, AllMovable};

use crate::part::AssignedPart;
use crate::shown::Shown;
use pide_base::Range;
use report_markup::{Report, moved_range, one_order};
use std::alloc::{AllocError, Global};
use text_edits::{Edit, convert_range_list};

/// Where a range is after the edits, or None where they leave nothing of it.
fn left_range(edits: &[Edit], range: Range) -> Option<Range>
    requires { Fits edits.now range }
    ensures { result ≡ left_range edits.now range }
{
    if edits.is_empty() {
        return Some(range);
    }
    let range = convert_range_list(edits, range);
    if range.start < range.stop {
        Some(range)
    } else {
        None
    }
}

/// Adds what the edits leave of the reports of a command that stands at `place`.
fn add_reports<'a>(
    reports: &mut Vec<Shown<'a>>,
    edits: &[Edit],
    place: usize,
    found: &'a [Report],
) -> Result<(), AllocError>
    requires { AllByRecursion (Movable edits.now place) found.now }
    ensures { OnOk result (map seen reports.new.items
        ≡ map seen reports.old.items ++ left_by edits.now (map (moved place) found.now)) }
{
    for report in found {
        if let Some(range) = left_range(edits, moved_range(place, report.range)) {
            reports.push(Shown { range, report })?;
        }
    }
    Ok(())
}

/// Puts the reports from a number on in order, if there are so many.
fn order_back(reports: &mut [Shown<'_>], from: usize, alloc: Global) -> Result<(), AllocError>
    ensures { OnOk result (IsPermutation reports.old reports.new) }
{
    if from <= reports.len() {
        reports[from..].sort(alloc)?;
    }
    Ok(())
}

/// The command whose reports were added last, and the number of the first of them.
#[derive(Drop)]
struct Last {
    span: Range,
    from: usize,
}

/// Puts the reports of the last command in order. This is for speed alone: once those of each
/// command are in order, all are, where no edit disturbs them.
fn order_last(reports: &mut Vec<Shown<'_>>, last: &Last, alloc: Global) -> Result<(), AllocError>
    ensures { OnOk result (CountsSame reports.old.items reports.new.items) }
{
    order_back(reports.as_mut_slice(), last.from, alloc)
}

/// Goes on to the command of a span, which may be the last one.
fn go_on(
    reports: &mut Vec<Shown<'_>>,
    last: &mut Last,
    span: Range,
    alloc: Global,
) -> Result<(), AllocError>
    ensures { OnOk result (CountsSame reports.old.items reports.new.items) }
{
    if last.span != span {
        order_last(reports, last, alloc)?;
        last.span = span;
        last.from = reports.len();
    }
    Ok(())
}

/// Adds what the edits leave of a part's reports.
fn add_part<'a>(
    reports: &mut Vec<Shown<'a>>,
    edits: &[Edit],
    part: &AssignedPart<'a>,
) -> Result<(), AllocError>
    requires { AllByRecursion (Movable edits.now part.now.span.start) (reported part.now.reports) }
    ensures { OnOk result (map seen reports.new.items ≡ map seen reports.old.items
        ++ left_by edits.now (map (moved part.now.span.start) (reported part.now.reports))) }
{
    match part.reports {
        Some(found) => add_reports(reports, edits, part.span.start, found),
        None => Ok(()),
    }
}

/// The reports in report order.
fn put_in_order<'a>(reports: Vec<Shown<'a>>) -> Result<Vec<Shown<'a>>, AllocError>
    ensures { (all : List Report)
        → ((measure : Report → ℕ)
        → sum_by measure (map seen reports.entry.items) ≡ sum_by measure all)
        → IfOk result (λ ordered. map seen ordered.items ≡ ordered_reports all) }
{
    one_order();
    let mut reports = reports;
    reports.sort()?;
    Ok(reports)
}

/// The reports in report order, by the ranges where they are shown.
pub fn in_report_order<'a>(reports: Vec<Shown<'a>>) -> Result<Vec<Shown<'a>>, AllocError>
    ensures { IfOk result (λ ordered. map seen ordered.items
        ≡ ordered_reports (map seen reports.entry.items)) }
{
    put_in_order(reports)
}

/// What the finished parts report, as the edits leave it, in report order.
pub(crate) fn gather<'a>(
    alloc: Global,
    parts: &[AssignedPart<'a>],
    edits: &[Edit],
) -> Result<Vec<Shown<'a>>, AllocError>
    requires { AllMovable edits.now parts.now }
    ensures { IfOk result (λ reports. map seen reports.items ≡ snapshot_reports edits.now
        parts.now) }
{
    let mut reports = Vec::new(alloc);
    let mut last = Last {
        span: Range { start: 0, stop: 0 },
        from: 0,
    };
    for part in parts {
        go_on(&mut reports, &mut last, part.span, alloc)?;
        add_part(&mut reports, edits, part)?;
    }
    order_last(&mut reports, &last, alloc)?;
    put_in_order(reports)
}
