//! What a snapshot holds, and its reports in YXML.
ghost use Rattle.std.specs.Prelude.{◌≡◌, ◌++◌, map, OnOk, string_bytes};
ghost use Rattle.yxml.specs.Spelling.{yxml};
ghost use Rattle.report_markup.specs.Element.{element};
ghost use Rattle.snapshots.specs.Seen.{seen};

use crate::shown::Shown;
use pide_base::ExecId;
use report_markup::write_report;
use std::alloc::AllocError;

/// What is shown of a node: the reports in report order, the executions with an unfinished part,
/// rising, and whether the editor has edits that the version doesn't have.
#[derive(Drop)]
pub struct Snapshot<'a> {
    pub reports: Vec<Shown<'a>>,
    pub pending: Vec<ExecId>,
    pub outdated: bool,
}

/// Adds the YXML of the reports, each at the range where it is shown.
pub fn write_shown(out: &mut String, reports: &[Shown<'_>]) -> Result<(), AllocError>
    ensures { OnOk result (string_bytes out.new
        ≡ string_bytes out.old ++ yxml (map element (map seen reports.now))) }
{
    for shown in reports {
        write_report(out, shown.range, shown.report)?;
    }
    Ok(())
}
