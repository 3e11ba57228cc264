ghost use Rattle.std.specs.Prelude.{◌≡◌, IfOk};
ghost use Rattle.std.specs.Arc.{arc_value};
ghost use Rattle.report_markup.specs.Sorting.{insert_report};
ghost use Rattle.report_markup.specs.Standing.{Stand};

use crate::balance::joined;
use crate::report::Report;
use crate::tree::Tree;
use std::alloc::{AllocError, Global};
use std::sync::Arc;

/// The reports with this one in its place.
pub(crate) fn placed(alloc: Global, tree: &Tree, report: &Arc<Report>) -> Result<Tree, AllocError>
    requires { Stand tree.now }
    ensures { IfOk result (λ made. made ≡ insert_report (arc_value report.now) tree.now) }
{
    let Some(parts) = tree.parts() else {
        return Tree::fork(alloc, tree, report, tree);
    };
    let other: &Report = parts.report;
    let new: &Report = report;
    if new.cmp(other).is_gt() {
        let right = placed(alloc, parts.right, report)?;
        joined(alloc, parts.left, parts.report, &right)
    } else {
        let left = placed(alloc, parts.left, report)?;
        joined(alloc, &left, parts.report, parts.right)
    }
}
