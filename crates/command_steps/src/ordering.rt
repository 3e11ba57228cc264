//! What is reported of a proof command, and the names that it gives.
ghost use Rattle.std.specs.Prelude.{◌≡◌, ◌∷◌, [], IfOk, option_map, string_bytes};
ghost use Rattle.std.specs.Result.{result_map_both};
ghost use Rattle.isar_rules.specs.Errors.{formula_in};
ghost use Rattle.isar_rules.specs.Proofs.{text_of_name};
ghost use Rattle.isar_rules.specs.Reports.{formula_report, local_report};
ghost use Rattle.command_steps.specs.Tries.{Tries};

use crate::halt::Halt;
use crate::refusals::formula_in;
use crate::reports::{formula_report, local_report};
use crate::texts::ascii;
use isar_rules::Spot;
use joined_results::both;
use nj_formula::Formula;
use report_markup::Report;
use sqlite_items::Items;
use std::alloc::{AllocError, Global};

/// The reports of a quoted formula, and of the name that it has in the proof.
fn local_reports(
    alloc: Global,
    name: &Option<Spot>,
    quoted: &Spot,
    formula: &Formula,
) -> Result<Items<Report>, AllocError>
    ensures { IfOk result (λ reports. reports
        ≡ formula_report quoted.now formula.now ∷ local_report name.now) }
{
    let own = only(alloc, formula_report(alloc, quoted, formula)?);
    let (mut reports, more) = both(own, local_report(alloc, name))?;
    reports.append(more)?;
    Ok(reports)
}

fn only(alloc: Global, report: Report) -> Result<Items<Report>, AllocError>
    ensures { IfOk result (λ reports. reports ≡ report ∷ []) }
{
    let mut reports = Items::new(alloc);
    reports.push(report)?;
    Ok(reports)
}

/// A quoted formula, unless it is bad, with its reports and those of its name in the proof.
pub(crate) fn quoted_in(
    alloc: Global,
    name: &Option<Spot>,
    quoted: &Spot,
) -> Result<(Formula, Items<Report>), Halt>
    ensures formula { Tries (formula_in quoted.now.text)
        (result_map_both (λ both. both.0) (λ halt. halt) result) }
    ensures reports { IfOk result (λ both. both.1
        ≡ formula_report quoted.now both.0 ∷ local_report name.now) }
{
    let formula = formula_in(alloc, quoted.text.as_slice())?;
    let reports = local_reports(alloc, name, quoted, &formula);
    let (formula, reports) = both(Ok(formula), reports)?;
    Ok((formula, reports))
}

/// The text of a name, where there is one. It has to be in ASCII.
pub(crate) fn local_name(alloc: Global, name: &Option<Spot>) -> Result<Option<String>, AllocError>
    ensures { IfOk result (λ text. option_map string_bytes text ≡ text_of_name name.now) }
{
    match name {
        Some(name) => Ok(Some(ascii(alloc, name.text.as_slice())?)),
        None => Ok(None),
    }
}
