//! What is printed behind a command.
ghost use Rattle.std.specs.Prelude.{◌≡◌, ◌++◌, IfOk, OnOk, map, codes, string_bytes};
ghost use Rattle.isar_rules.specs.Shown.{place_text, suggested_at, suggestion, print};

use command_steps::{state_report, state_text, suggest_report};
use doc_nodes::Aliases;
use isar_rules::{Place, State};
use nj_formula::Name;
use nj_suggest::{by_text, suggest};
use proof_terms::Term;
use report_markup::Report;
use sqlite_items::Items;
use std::alloc::{AllocError, Global};

/// A theory's name, with what is said of it.
fn of_theory(alloc: Global, name: &Name, behind: &str) -> Result<String, AllocError>
    ensures { IfOk result (λ text. string_bytes text
        ≡ codes "theory " ++ (name.now ++ behind.now)) }
{
    let mut text = String::from_str(alloc, "theory ")?;
    text.push_str(name.as_str())?;
    text.push_str(behind)?;
    Ok(text)
}

/// The text of a place.
fn place_text(alloc: Global, place: &Place) -> Result<String, AllocError>
    ensures { IfOk result (λ text. string_bytes text ≡ place_text place.now) }
{
    match place {
        Place::Start { .. } | Place::Outside => String::from_str(alloc, "no theory"),
        Place::Theory(theory) => of_theory(alloc, &theory.name, ""),
        Place::Proof { proof, .. } => state_text(alloc, proof),
        Place::End(theory) => of_theory(alloc, &theory.name, " ended"),
    }
}

/// The proof that is suggested at a place, where these are the aliases in force.
fn suggested_at(alloc: Global, aliases: &Aliases, place: &Place) -> Result<Option<Term>, AllocError>
    ensures { IfOk result (λ term. term
        ≡ suggested_at (map (λ pair. pair.0) aliases.now) place.now) }
{
    let Place::Proof { theory, proof, .. } = place else {
        return Ok(None);
    };
    let Some(goal) = proof.goal() else {
        return Ok(None);
    };
    let scope = proof.scope(alloc, theory.name.as_str(), &theory.facts)?;
    let term = suggest(alloc, goal, &scope, aliases.names());
    drop(scope);
    term
}

/// Adds the report of a suggested proof, where there is one.
fn add_suggestion(
    alloc: Global,
    source: &[char],
    term: &Option<Term>,
    reports: &mut Items<Report>,
) -> Result<(), AllocError>
    ensures { OnOk result (reports.new ≡ reports.old ++ suggestion source.now term.now) }
{
    match term {
        Some(term) => {
            let text = by_text(alloc, term)?;
            reports.push(suggest_report(alloc, source, text)?)
        }
        None => Ok(()),
    }
}

/// Adds the report of the proof that is suggested behind a command, where there is one.
fn suggest_behind(
    alloc: Global,
    source: &[char],
    behind: &State,
    reports: &mut Items<Report>,
) -> Result<(), AllocError>
    ensures { OnOk result (reports.new ≡ reports.old ++ suggestion source.now
        (suggested_at (map (λ pair. pair.0) behind.now.aliases) behind.now.place)) }
{
    let term = suggested_at(alloc, behind.aliases.get(), &behind.place)?;
    let added = add_suggestion(alloc, source, &term, reports);
    drop(term);
    added
}

/// What is printed of a command, by the state behind it.
pub(crate) fn print(
    alloc: Global,
    source: &[char],
    behind: &State,
) -> Result<Items<Report>, AllocError>
    ensures { IfOk result (λ reports. reports ≡ print source.now behind.now) }
{
    let text = place_text(alloc, &behind.place)?;
    let report = state_report(alloc, source, text)?;
    let mut reports = Items::new(alloc);
    reports.push(report)?;
    suggest_behind(alloc, source, behind, &mut reports)?;
    Ok(reports)
}
