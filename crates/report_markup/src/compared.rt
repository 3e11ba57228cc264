//! Report order, of reports that are shown at other ranges than their own.
ghost use Rattle.std.specs.Prelude.{◌≡◌};
ghost use Rattle.report_markup.specs.Order.{report_cmp, said_cmp};

use crate::report::Report;
use pide_base::Range;
use std::cmp::Ordering;

/// How what two reports say compares, whatever their ranges.
fn compare_said(report: &Report, other: &Report) -> Ordering
    ensures { result ≡ said_cmp report.now other.now }
{
    let kinds = report.kind.word().cmp(other.kind.word());
    let properties = report
        .properties
        .as_slice()
        .cmp(other.properties.as_slice());
    let texts = report.text.as_str().cmp(other.text.as_str());
    kinds.then(properties.then(texts))
}

/// How two reports compare, each at a range that it is shown at instead of its own. What they say
/// is looked at where the ranges are equal.
pub fn compare_at(range: Range, report: &Report, other_range: Range, other: &Report) -> Ordering
    ensures { result ≡ report_cmp (record report.now { range = range })
        (record other.now { range = other_range }) }
{
    match range.start.cmp(&other_range.start) {
        Ordering::Equal => match other_range.stop.cmp(&range.stop) {
            Ordering::Equal => compare_said(report, other),
            unequal => unequal,
        },
        unequal => unequal,
    }
}
