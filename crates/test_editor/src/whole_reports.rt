//! Reports of whole sources.
ghost use Rattle.std.specs.Prelude.{◌≡◌, IfOk};
ghost use Rattle.test_editor.specs.About.{about};

use pide_base::Range;
use report_markup::{PlainText, Report, ReportKind};
use sqlite_items::Items;
use std::alloc::{AllocError, Global};

/// One report, of the whole source, which tells the text.
pub(crate) fn about(
    alloc: Global,
    kind: ReportKind,
    source: &[char],
    text: PlainText,
) -> Result<Items<Report>, AllocError>
    ensures { IfOk result (λ reports. reports ≡ about kind source.now text) }
{
    let mut reports = Items::new(alloc);
    reports.push(Report {
        range: Range {
            start: 0,
            stop: source.len(),
        },
        kind,
        properties: Items::new(alloc),
        text,
    })?;
    Ok(reports)
}
