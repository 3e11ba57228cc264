//! Laws over definitions alone.

ghost use Rattle.std.specs.Prelude.{◌≡◌, ◌↔◌, List, [], None, IsTrue};
ghost use Rattle.pide_base.specs.declared.range.Range.{Range};
ghost use Rattle.report_markup.specs.declared.report.Report.{Report};
ghost use Rattle.report_markup.specs.Ranges.{AreTreelike, IsTreelike};
ghost use Rattle.report_markup.specs.Sorting.{insert_report, ordered_reports};
ghost use Rattle.report_markup.specs.Crossing.{crosses, first_crossing};
ghost use Rattle.report_markup.specs.Standing.{Stand};

/// A law: ranges cross just where they are neither equal, nor nested, nor disjoint.
pub fn crossing_law()
    ensures { (r s : Range) → IsTrue (crosses r s) ↔ ¬ AreTreelike r s }
{}

/// A law: reports that stand so are in report order, and any two are equal in range, nested or
/// disjoint; one that crosses none of them can join them.
pub fn standing_law()
    ensures ordered { (reports : List Report) → Stand reports → ordered_reports reports ≡ reports }
    ensures treelike { (reports : List Report) → Stand reports → IsTreelike reports }
    ensures joins { (report : Report) (reports : List Report) → Stand reports
        → first_crossing report.range reports ≡ None → Stand (insert_report report reports) }
{}
