//! Reports at ranges in symbols.
ghost use Rattle.std.specs.Prelude.{◌≡◌, ◌++◌, [], ◌∷◌, map, filter, IfOk, OnOk};
ghost use Rattle.report_markup.specs.declared.report.Report.{Report};
ghost use Rattle.snapshots.specs.Seen.{seen};
ghost use Rattle.symbol_markup.specs.Told.{at_symbols, is_filled, in_symbols};

use crate::places::SymbolPlaces;
use pide_base::Range;
use report_markup::Report;
use snapshots::{Shown, in_report_order};
use std::alloc::{AllocError, Global};

/// What is told of reports that are shown at ranges of the text in scalars: each at its range in
/// symbols, counted from 1, without those whose two numbers are equal, and the rest in report
/// order by these numbers. Where that is their order already, time is linear in the text, and in
/// the reports but for a logarithm of the symbols.
pub fn in_symbols<'a>(
    alloc: Global,
    text: &[char],
    reports: &[Shown<'a>],
) -> Result<Vec<Shown<'a>>, AllocError>
    ensures { IfOk result (λ told. map seen told.items
        ≡ in_symbols text.now (map seen reports.now)) }
{
    let places = SymbolPlaces::of(alloc, text)?;
    let mut told = Vec::new(alloc);
    for shown in reports {
        add_filled(&mut told, places.range(shown.range), shown.report)?;
    }
    in_report_order(told)
}

/// The same of the reports of a command, where the text is the command's source.
pub fn reports_in_symbols<'a>(
    alloc: Global,
    text: &[char],
    reports: &'a [Report],
) -> Result<Vec<Shown<'a>>, AllocError>
    ensures { IfOk result (λ told. map seen told.items ≡ in_symbols text.now reports.now) }
{
    let shown = at_own_ranges(alloc, reports)?;
    in_symbols(alloc, text, &shown)
}

fn at_own_ranges<'a>(alloc: Global, reports: &'a [Report]) -> Result<Vec<Shown<'a>>, AllocError>
    ensures { IfOk result (λ shown. map seen shown.items ≡ reports.now) }
{
    let mut shown = Vec::new(alloc);
    for report in reports {
        shown.push(Shown {
            range: report.range,
            report,
        })?;
    }
    Ok(shown)
}

/// Adds the report at the range, if its two numbers differ.
fn add_filled<'a>(
    told: &mut Vec<Shown<'a>>,
    range: Range,
    report: &'a Report,
) -> Result<(), AllocError>
    ensures { OnOk result (map seen told.new.items ≡ map seen told.old.items
        ++ filter (λ r. is_filled r.range) (record report.now { range = range } ∷ [])) }
{
    if range.start != range.stop {
        told.push(Shown { range, report })?;
    }
    Ok(())
}
