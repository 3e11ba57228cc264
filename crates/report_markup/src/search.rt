//! Searches by range.

ghost use Rattle.std.specs.Prelude.{◌≡◌, ◌++◌, filter, map, OnOk};
ghost use Rattle.report_markup.specs.Crossing.{crosses, first_crossing, contains};
ghost use Rattle.report_markup.specs.Innermost.{surrounds, innermost, ends_before, begins_behind, may_cross};
ghost use Rattle.report_markup.specs.Standing.{Stand};

use crate::report::Report;
use crate::tree::Tree;
use pide_base::Range;
use sqlite_items::Items;
use std::alloc::AllocError;

/// Whether the ranges are neither equal, nor nested, nor disjoint.
fn crosses(range: Range, other: Range) -> bool
    ensures { result ≡ crosses range other }
{
    (range.start < other.start && other.start < range.stop && range.stop < other.stop)
        || (other.start < range.start && range.start < other.stop && other.stop < range.stop)
}

/// The first report whose range crosses this one.
fn first_crossing(tree: &Tree, range: Range) -> Option<Range>
    ensures { result ≡ first_crossing range tree.now }
{
    let parts = tree.parts()?;
    let report: &Report = parts.report;
    match first_crossing(parts.left, range) {
        Some(found) => Some(found),
        None if crosses(range, report.range) => Some(report.range),
        None => first_crossing(parts.right, range),
    }
}

/// Whether the range begins before the place and ends behind it.
fn surrounds(place: usize, range: Range) -> bool
    ensures { result ≡ surrounds place range }
{
    range.start < place && place < range.stop
}

/// The range of the last report that begins before the place and ends behind it.
fn innermost(tree: &Tree, place: usize) -> Option<Range>
    ensures { result ≡ innermost place tree.now }
{
    let bounds = tree.bounds();
    if bounds.first >= place || bounds.reach <= place {
        return None;
    }
    let parts = tree.parts()?;
    let report: &Report = parts.report;
    match innermost(parts.right, place) {
        Some(found) => Some(found),
        None if surrounds(place, report.range) => Some(report.range),
        None => innermost(parts.left, place),
    }
}

/// Whether it ends before the place.
fn ends_before(range: Option<Range>, place: usize) -> bool
    ensures { result ≡ ends_before range place }
{
    match range {
        None => false,
        Some(range) => range.stop < place,
    }
}

/// Whether it begins behind the place.
fn begins_behind(range: Option<Range>, place: usize) -> bool
    ensures { result ≡ begins_behind range place }
{
    match range {
        None => false,
        Some(range) => place < range.start,
    }
}

/// Whether the innermost reports around the range's two ends tell that it may cross one.
fn may_cross(tree: &Tree, range: Range) -> bool
    ensures { result ≡ may_cross range tree.now }
{
    ends_before(innermost(tree, range.start), range.stop)
        || begins_behind(innermost(tree, range.stop), range.start)
}

/// The range of the first report that this range crosses; all reports are looked at only where
/// there is one.
pub(crate) fn crossing(tree: &Tree, range: Range) -> Option<Range>
    requires { Stand tree.now }
    ensures { result ≡ first_crossing range tree.now }
{
    if may_cross(tree, range) {
        first_crossing(tree, range)
    } else {
        None
    }
}

/// Adds the reports whose range contains this one.
pub(crate) fn push_containing<'a>(
    to: &mut Items<&'a Report>,
    tree: &'a Tree,
    range: Range,
) -> Result<(), AllocError>
    ensures { OnOk result (map (λ report. report.now) to.new
        ≡ map (λ report. report.now) to.old ++ filter (contains range) tree.now) }
{
    let bounds = tree.bounds();
    if bounds.first > range.start || bounds.reach < range.stop {
        return Ok(());
    }
    let Some(parts) = tree.parts() else {
        return Ok(());
    };
    push_containing(to, parts.left, range)?;
    let report: &Report = parts.report;
    if report.range.start <= range.start && range.stop <= report.range.stop {
        to.push(report)?;
    }
    push_containing(to, parts.right, range)
}

/// Adds all reports.
pub(crate) fn push_all<'a>(to: &mut Items<&'a Report>, tree: &'a Tree) -> Result<(), AllocError>
    ensures { OnOk result (map (λ report. report.now) to.new
        ≡ map (λ report. report.now) to.old ++ tree.now) }
{
    let Some(parts) = tree.parts() else {
        return Ok(());
    };
    push_all(to, parts.left)?;
    to.push(parts.report)?;
    push_all(to, parts.right)
}
