//! Axioms, and the beginnings of lemmas.
ghost use Rattle.std.specs.Prelude.{◌≡◌, ◌∷◌, [], IfOk};
ghost use Rattle.isar_rules.specs.declared.state.Place.TheVariants as place;
ghost use Rattle.isar_rules.specs.Reports.{def_report, formula_report};
ghost use Rattle.isar_rules.specs.Theories.{axiom_made, lemma_made};
ghost use Rattle.command_steps.specs.Tries.{Tries};
ghost use Rattle.proof_state.specs.declared.levels.Levels.TheVariants.{Prove};
ghost use Rattle.command_steps.specs.Stated.{stated_formula};

use crate::effect::{Effect, makes};
use crate::facts::{has_fact, name_of, with_fact};
use crate::halt::Halt;
use crate::refusals::{formula_in, named_refusal};
use crate::reports::{def_report, formula_report};
use isar_rules::{Place, Spot, Theory};
use joined_results::both;
use nj_formula::{Formula, Name};
use pide_base::Range;
use proof_state::Proof;
use report_markup::Report;
use sqlite_items::Items;
use std::alloc::{AllocError, Global};

/// A new fact's name and what it says, unless its formula is bad or the name taken.
fn stated(
    alloc: Global,
    theory: &Theory,
    name: &Spot,
    quoted: &Spot,
) -> Result<(Name, Formula), Halt>
    ensures { Tries (stated_formula theory.now name.now quoted.now) result }
{
    let own = name_of(alloc, name.text.as_slice())?;
    let formula = formula_in(alloc, quoted.text.as_slice())?;
    if has_fact(theory, own.as_str()) {
        drop(formula);
        let name = name.text.as_slice();
        return Err(named_refusal(alloc, "name taken ", name));
    }
    Ok((own, formula))
}

/// The reports of a new fact: its name, which stands at this range, and its formula.
fn stated_reports(
    alloc: Global,
    theory: &Theory,
    own: &Name,
    range: Range,
    quoted: &Spot,
    formula: &Formula,
) -> Result<Items<Report>, AllocError>
    ensures { IfOk result (λ reports. reports
        ≡ def_report theory.now.name (record { text = own.now; range = range })
        ∷ formula_report quoted.now formula.now ∷ []) }
{
    let first = only(alloc, def_report(alloc, &theory.name, own, range)?);
    let (mut reports, formula) = both(first, formula_report(alloc, quoted, formula))?;
    reports.push(formula)?;
    Ok(reports)
}

fn only(alloc: Global, report: Report) -> Result<Items<Report>, AllocError>
    ensures { IfOk result (λ reports. reports ≡ report ∷ []) }
{
    let mut reports = Items::new(alloc);
    reports.push(report)?;
    Ok(reports)
}

/// `axiom`: the theory has the fact. The error is the first that holds: a bad formula, a taken
/// name.
pub fn axiom_made(
    alloc: Global,
    theory: &Theory,
    name: &Spot,
    quoted: &Spot,
) -> Result<Effect, Halt>
    ensures { Tries (axiom_made theory.now name.now quoted.now) result }
{
    let (own, formula) = stated(alloc, theory, name, quoted)?;
    let reports = stated_reports(alloc, theory, &own, name.range, quoted, &formula);
    let (more, reports) = both(with_fact(alloc, theory, &own, formula), reports)?;
    Ok(makes(Place::Theory(more), reports))
}

/// The place where the proof of this goal begins.
fn in_proof(alloc: Global, theory: &Theory, name: Name, goal: Formula) -> Result<Place, AllocError>
    ensures { IfOk result (λ p. p ≡ place.Proof theory.now name goal (Prove goal [])) }
{
    let copies = both(theory.copy(alloc), goal.copy(alloc));
    let Ok((theory, proved)) = copies else {
        drop((name, goal));
        return Err(AllocError);
    };
    let proof = Proof::start(proved);
    Ok(Place::Proof {
        theory,
        name,
        goal,
        proof,
    })
}

/// `lemma`: its proof begins. The errors are those of `axiom`.
pub fn lemma_made(
    alloc: Global,
    theory: &Theory,
    name: &Spot,
    quoted: &Spot,
) -> Result<Effect, Halt>
    ensures { Tries (lemma_made theory.now name.now quoted.now) result }
{
    let (own, goal) = stated(alloc, theory, name, quoted)?;
    let reports = stated_reports(alloc, theory, &own, name.range, quoted, &goal);
    let (place, reports) = both(in_proof(alloc, theory, own, goal), reports)?;
    Ok(makes(place, reports))
}
