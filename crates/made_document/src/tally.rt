//! Counting reports.
ghost use Rattle.std.specs.Prelude.{◌≡◌, ◌+◌, ◌++◌, [], List, IfOk, OnOk, filter, length};
ghost use Rattle.report_markup.specs.declared.report.Report.{Report};
ghost use Rattle.made_document.specs.Summary.{is_error};
ghost use Rattle.made_document.specs.Tallies.{IsTally, results_reports};

use core_jobs::PartResult;
use report_markup::{Report, ReportKind};
use std::alloc::AllocError;

/// How many reports were counted, and how many of them are of errors.
#[derive(Clone, Copy, Debug)]
pub struct Tally {
    pub reports: u64,
    pub errors: u64,
}

/// The sum, where it is a number of 64 bits. More reports than that have no room in memory.
fn sum(one: u64, other: u64) -> Result<u64, AllocError>
    ensures { IfOk result (λ both. both ≡ one + other) }
{
    match one.checked_add(other) {
        Some(both) => Ok(both),
        None => Err(AllocError),
    }
}

/// Whether the report is of an error.
fn is_error(report: &Report) -> bool
    ensures { result ≡ is_error report.now }
{
    matches!(report.kind, ReportKind::Error)
}

/// How many of the reports are of errors.
fn errors_in(reports: &[Report]) -> u64
    ensures { result ≡ length (filter is_error reports.now) }
{
    let mut errors: u64 = 0;
    'reports: for report in reports {
        if is_error(report) {
            errors += 1;
        }
    }
    errors
}

impl Tally {
    /// None yet.
    pub fn new() -> Tally
        ensures { IsTally result [] }
    {
        Tally {
            reports: 0,
            errors: 0,
        }
    }

    /// Counts these reports too.
    fn add(&mut self, reports: &[Report]) -> Result<(), AllocError>
        ensures { OnOk result ((all : List Report) → IsTally self.old all
            → IsTally self.new (all ++ reports.now)) }
    {
        self.reports = sum(self.reports, reports.len() as u64)?;
        self.errors = sum(self.errors, errors_in(reports))?;
        Ok(())
    }

    /// Counts the reports of these parts too. For want of memory, which is also told where a count
    /// would be no number of 64 bits, some of them may be counted.
    pub fn add_parts(&mut self, parts: &[PartResult<'_>]) -> Result<(), AllocError>
        ensures { OnOk result ((all : List Report) → IsTally self.old all
            → IsTally self.new (all ++ results_reports parts.now)) }
    {
        'parts: for part in parts {
            self.add(part.reports)?;
        }
        Ok(())
    }
}
