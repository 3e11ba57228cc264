//! Laws over the definitions, as contracts of functions that do nothing.
ghost use Rattle.std.specs.Prelude.{◌≡◌, ◌↔◌, List};
ghost use Rattle.std.specs.Cmp.{IsTotalOrder};
ghost use Rattle.std.specs.declared.cmp.Ordering.TheVariants.{Equal};
ghost use Rattle.report_markup.specs.declared.report.Report.{Report};
ghost use Rattle.report_markup.specs.Order.{report_cmp};
ghost use Rattle.report_markup.specs.Sorting.{ordered_reports, IsOrderOf};

/// Report order is a total order in which only a report and itself are equal, so reports can be put
/// in order in one way alone.
pub fn one_order()
    ensures total { IsTotalOrder report_cmp }
    ensures same { (a b : Report) → (report_cmp a b ≡ Equal) ↔ (a ≡ b) }
    ensures one { (reports : List Report) → IsOrderOf reports (ordered_reports reports)
        × ((other : List Report) → IsOrderOf reports other → other ≡ ordered_reports reports) }
{}
