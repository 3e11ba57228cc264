//! Reports and their order.
ghost use Rattle.std.specs.Prelude.{◌≡◌, Bool};
ghost use Rattle.std.proofs.Common.{rules};
ghost use Rattle.std.specs.Cmp.{partial_order_from_own_ties};
ghost use Rattle.std.specs.Cmp.Rules.{comparing};
ghost use Rattle.std.specs.Ordering.{as_partial_cmp, eq_by_cmp};

use crate::compared::compare_at;
use crate::kind::ReportKind;
use crate::plain_text::PlainText;
use crate::property::Property;
use pide_base::Range;
use sqlite_items::Items;
use std::cmp::Ordering;

/// What is said of a range of a text, counted in scalars: the kind, its properties in the order in
/// which they are written, and a text, often empty.
#[derive(Debug, Drop)]
pub struct Report {
    pub range: Range,
    pub kind: ReportKind,
    pub properties: Items<Property>,
    pub text: PlainText,
}

impl Ord for Report {
    ghost use Rattle.report_markup.specs.Order.{report_cmp};

    ghost cmp = { report_cmp };

    ghost total = { Prim.search (comparing, rules) depth 12 };

    ghost matches_partial_cmp = { Prim.search (comparing, rules) depth 12 };

    ghost matches_eq = { Prim.search (comparing, rules) depth 12 };

    /// Report order: start rising, stop falling, then kind, properties and text by their bytes.
    fn cmp(&self, other: &Report) -> Ordering {
        compare_at(self.range, self, other.range, other)
    }
}

impl PartialOrd for Report {
    ghost use Rattle.report_markup.specs.Order.{report_cmp};

    ghost partial_cmp = { as_partial_cmp report_cmp };

    ghost laws = { partial_order_from_own_ties (Prim.search (comparing, rules) depth 12)
        (Prim.search (comparing, rules) depth 12) };

    fn partial_cmp(&self, other: &Report) -> Option<Ordering> {
        Some(self.cmp(other))
    }
}

impl PartialEq for Report {
    ghost use Rattle.report_markup.specs.Order.{report_cmp};

    ghost eq = { eq_by_cmp report_cmp };

    ghost laws = { Prim.search (comparing, rules) depth 12 };

    fn eq(&self, other: &Report) -> bool {
        self.cmp(other) == Ordering::Equal
    }
}

impl Eq for Report {
    ghost laws = { Prim.search (comparing, rules) depth 12 };
}
