//! Reports that are shown at ranges of a text.
ghost use Rattle.std.specs.Prelude.{◌≡◌, Bool};
ghost use Rattle.std.proofs.Common.{rules};
ghost use Rattle.std.specs.Cmp.{partial_order_from_own_ties};
ghost use Rattle.std.specs.Cmp.Rules.{comparing};
ghost use Rattle.std.specs.Ordering.{on, as_partial_cmp, eq_by_cmp};

use pide_base::Range;
use report_markup::{Report, compare_at};
use std::cmp::Ordering;

/// A report of a command that is shown at a range of a text, in scalars.
#[derive(Clone, Copy)]
pub struct Shown<'a> {
    pub range: Range,
    pub report: &'a Report,
}

impl Ord for Shown<'_> {
    ghost use Rattle.report_markup.specs.Order.{report_cmp};
    ghost use Rattle.snapshots.specs.Seen.{seen};

    ghost cmp = { on seen report_cmp };

    ghost total = { Prim.search (comparing, rules) depth 14 };

    ghost matches_partial_cmp = { Prim.search (comparing, rules) depth 14 };

    ghost matches_eq = { Prim.search (comparing, rules) depth 14 };

    /// Report order, at the ranges where the reports are shown.
    fn cmp(&self, other: &Self) -> Ordering {
        compare_at(self.range, self.report, other.range, other.report)
    }
}

impl PartialOrd for Shown<'_> {
    ghost use Rattle.report_markup.specs.Order.{report_cmp};
    ghost use Rattle.snapshots.specs.Seen.{seen};

    ghost partial_cmp = { as_partial_cmp (on seen report_cmp) };

    ghost laws = { partial_order_from_own_ties (Prim.search (comparing, rules) depth 14)
        (Prim.search (comparing, rules) depth 14) };

    fn partial_cmp(&self, other: &Self) -> Option<Ordering> {
        Some(self.cmp(other))
    }
}

impl PartialEq for Shown<'_> {
    ghost use Rattle.report_markup.specs.Order.{report_cmp};
    ghost use Rattle.snapshots.specs.Seen.{seen};

    ghost eq = { eq_by_cmp (on seen report_cmp) };

    ghost laws = { Prim.search (comparing, rules) depth 14 };

    fn eq(&self, other: &Self) -> bool {
        self.cmp(other) == Ordering::Equal
    }
}

impl Eq for Shown<'_> {
    ghost laws = { Prim.search (comparing, rules) depth 14 };
}
