//! Reports that come in parts, put in report order.
//!
//! The order is that of `report_markup`, in which only a report and itself are equal, so there is
//! one answer. It must not know of commands or of states.
ghost use Rattle.std.specs.Prelude.{◌≡◌, ◌+◌, ◌++◌, ℕ, IfOk, IsTrue, OnOk};
ghost use Rattle.std.specs.List.{sum_by};
ghost use Rattle.std.specs.List.Sorted.{IsSorted};
ghost use Rattle.report_markup.specs.declared.report.Report.{Report};
ghost use Rattle.report_markup.specs.Order.{report_cmp};
ghost use Rattle.report_markup.specs.Sorting.{ordered_reports};

use crate::laws::one_order;
use crate::report::Report;
use sqlite_items::Items;
use std::alloc::{AllocError, Global};

/// Moves the reports behind those that are there, the last one first.
fn take_all(all: &mut Vec<Report>, reports: Items<Report>) -> Result<(), AllocError>
    ensures { OnOk result ((measure : Report → ℕ) → sum_by measure all.new.items
        ≡ sum_by measure all.old.items + sum_by measure reports) }
{
    let mut reports = reports;
    'reports: while let Some(report) = reports.pop() {
        all.push(report)?;
    }
    Ok(())
}

/// Whether the reports stand in report order.
fn are_sorted(reports: &[Report]) -> bool
    ensures { IsTrue result → IsSorted report_cmp reports.now }
{
    one_order();
    reports.is_sorted()
}

/// The reports moved one by one into report order.
fn sorted_anew(alloc: Global, reports: Items<Report>) -> Result<Items<Report>, AllocError>
    ensures { IfOk result (λ ordered. ordered ≡ ordered_reports reports) }
{
    one_order();
    let mut all = Vec::with_capacity(alloc, reports.len())?;
    take_all(&mut all, reports)?;
    all.sort()?;
    Ok(Items::from_vec(all))
}

/// These reports in report order. Those that stand so are handed back as they are.
pub fn sorted(alloc: Global, reports: Items<Report>) -> Result<Items<Report>, AllocError>
    ensures { IfOk result (λ ordered. ordered ≡ ordered_reports reports) }
{
    one_order();
    if are_sorted(reports.as_slice()) {
        Ok(reports)
    } else {
        sorted_anew(alloc, reports)
    }
}

/// All of these reports in report order.
pub fn in_order(
    alloc: Global,
    reports: Items<Report>,
    more: Items<Report>,
) -> Result<Items<Report>, AllocError>
    ensures { IfOk result (λ ordered. ordered ≡ ordered_reports (reports ++ more)) }
{
    let mut all = reports;
    all.append(more)?;
    sorted(alloc, all)
}
