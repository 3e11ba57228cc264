//! What a command makes of a state, by what was tried.
ghost use Rattle.std.specs.Prelude.{◌≡◌, ◌∷◌, ◌++◌, [], Ok, Err, IfOk, string_bytes};
ghost use Rattle.isar_rules.specs.declared.state.Place.TheVariants as place;
ghost use Rattle.isar_rules.specs.Errors.{Tried};
ghost use Rattle.isar_rules.specs.Effects.{Effect as Effects};
ghost use Rattle.isar_rules.specs.Reports.{announced, error_report};
ghost use Rattle.isar_rules.specs.Steps.{after_error, made_effect};
ghost use Rattle.report_markup.specs.Sorting.{ordered_reports};
ghost use Rattle.command_steps.specs.Tries.{Tries};

use command_steps::{Effect, Halt, announced, error_report};
use isar_rules::{Place, State, Theory};
use joined_results::both;
use language::Made;
use nj_formula::{Formula, Name};
use outer_syntax::Token;
use proof_state::Proof;
use report_markup::{Report, in_order};
use sqlite_items::Items;
use std::alloc::{AllocError, Global};

/// The place in this proof of a lemma.
fn in_proof(
    alloc: Global,
    theory: &Theory,
    name: &Name,
    goal: &Formula,
    proof: &Proof,
) -> Result<Place, AllocError>
    ensures { IfOk result (λ p. p ≡ place.Proof theory.now name.now goal.now proof.now) }
{
    let ((theory, name), (goal, proof)) = both(
        both(theory.copy(alloc), name.copy(alloc)),
        both(goal.copy(alloc), proof.copy(alloc)),
    )?;
    Ok(Place::Proof {
        theory,
        name,
        goal,
        proof,
    })
}

/// The place behind an error.
fn after_error(alloc: Global, place: &Place) -> Result<Place, AllocError>
    ensures { IfOk result (λ after. after ≡ after_error place.now) }
{
    match place {
        Place::Start { .. } | Place::Outside => Ok(Place::Outside),
        Place::Theory(theory) => Ok(Place::Theory(theory.copy(alloc)?)),
        Place::Proof {
            theory,
            name,
            goal,
            proof,
        } => in_proof(alloc, theory, name, goal, proof),
        Place::End(theory) => Ok(Place::End(theory.copy(alloc)?)),
    }
}

/// All that is reported of a command of these tokens.
fn reported(
    alloc: Global,
    source: &[char],
    tokens: &[Token],
    reports: Items<Report>,
) -> Result<Items<Report>, AllocError>
    ensures { IfOk result (λ all. all ≡ ordered_reports (announced source.now tokens.now ++
        reports)) }
{
    let word = announced(alloc, source, tokens)?;
    in_order(alloc, word, reports)
}

/// What is reported of an error of this text.
fn error_reports(alloc: Global, source: &[char], text: String) -> Result<Items<Report>, AllocError>
    ensures { IfOk result (λ reports. reports
        ≡ error_report source.now (string_bytes text) ∷ []) }
{
    let report = error_report(alloc, source, text)?;
    let mut reports = Items::new(alloc);
    reports.push(report)?;
    Ok(reports)
}

/// What a command makes that leads to this place; the aliases stay.
fn made_at(
    before: &State,
    place: Place,
    reports: Items<Report>,
    forks: bool,
) -> Result<Made<State>, AllocError>
    ensures { IfOk result (λ made. made ≡ record {
      state = record before.now { place = place };
      reports = reports;
      forks = forks;
    }) }
{
    match before.aliases.copy() {
        Ok(aliases) => Ok(Made {
            state: State { place, aliases },
            reports,
            forks,
        }),
        Err(fault) => {
            drop((place, reports));
            Err(fault)
        }
    }
}

/// What an accepted command makes.
fn accepted(
    alloc: Global,
    source: &[char],
    tokens: &[Token],
    before: &State,
    effect: Effect,
) -> Result<Made<State>, AllocError>
    ensures { IfOk result (λ made. made ≡ made_effect source.now tokens.now before.now (Ok
        effect)) }
{
    let Effect {
        place,
        reports,
        forks,
    } = effect;
    match reported(alloc, source, tokens, reports) {
        Ok(all) => made_at(before, place, all, forks),
        Err(fault) => {
            drop(place);
            Err(fault)
        }
    }
}

/// What a command makes that is refused with this text.
fn refused(
    alloc: Global,
    source: &[char],
    tokens: &[Token],
    before: &State,
    text: String,
) -> Result<Made<State>, AllocError>
    ensures { IfOk result (λ made. made
        ≡ made_effect source.now tokens.now before.now (Err (string_bytes text))) }
{
    let error = error_reports(alloc, source, text)?;
    let all = reported(alloc, source, tokens, error);
    let (place, all) = both(after_error(alloc, &before.place), all)?;
    made_at(before, place, all, false)
}

/// What a command of these tokens makes.
pub(crate) fn made_by(
    alloc: Global,
    source: &[char],
    tokens: &[Token],
    before: &State,
    tried: Result<Effect, Halt>,
) -> Result<Made<State>, AllocError>
    ensures { (told : Tried Effects) → Tries told tried
        → IfOk result (λ made. made ≡ made_effect source.now tokens.now before.now told) }
{
    match tried {
        Ok(effect) => accepted(alloc, source, tokens, before, effect),
        Err(Halt::Refused(text)) => refused(alloc, source, tokens, before, text),
        Err(Halt::NoMemory) => Err(AllocError),
    }
}
