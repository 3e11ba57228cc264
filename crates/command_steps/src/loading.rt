//! What the command that loads a blob makes.
ghost use Rattle.std.specs.Prelude.{◌≡◌, ◌∷◌, [], IfOk, Ok, length, decimal};
ghost use Rattle.std.specs.Option.{option_copied};
ghost use Rattle.report_markup.specs.declared.kind.ReportKind.TheVariants as kinds;
ghost use Rattle.isar_rules.specs.BlobLines.{listed_facts};
ghost use Rattle.isar_rules.specs.Errors.{and_then};
ghost use Rattle.isar_rules.specs.Loads.{facts_or_bad_line, with_all, loaded, load_made};
ghost use Rattle.isar_rules.specs.Reports.{report};
ghost use Rattle.isar_rules.specs.Theories.{with_fact};
ghost use Rattle.command_steps.specs.Tries.{Tries};

use crate::effect::{Effect, makes};
use crate::fact::ListedFact;
use crate::facts::{has_fact, with_fact};
use crate::fault::BlobFault;
use crate::halt::Halt;
use crate::listing::facts_of;
use crate::refusals::{named_refusal, numbered_refusal};
use crate::reports::loaded_report;
use crate::theory_refusing::taken;
use isar_rules::{Place, Spot, Theory};
use report_markup::Report;
use sqlite_items::Items;
use std::alloc::{AllocError, Global};

/// The facts that the text lists, if all of its lines are good.
fn facts_or(alloc: Global, text: &[char]) -> Result<Items<ListedFact>, Halt>
    ensures { Tries (facts_or_bad_line (listed_facts text.now)) result }
{
    match facts_of(alloc, text) {
        Ok(facts) => Ok(facts),
        Err(BlobFault::BadLine(line)) => Err(numbered_refusal(alloc, "bad blob line ", line)),
        Err(BlobFault::NoMemory) => Err(Halt::NoMemory),
    }
}

/// The theory with one of these facts more.
fn with_listed(alloc: Global, theory: &Theory, fact: &ListedFact) -> Result<Theory, AllocError>
    ensures { IfOk result (λ more. more ≡ with_fact fact.now.0 fact.now.1 theory.now) }
{
    with_fact(alloc, theory, &fact.0, fact.1.copy(alloc)?)
}

/// The theory with all of these facts more, unless a name is taken.
fn with_all(alloc: Global, theory: &Theory, facts: &[ListedFact]) -> Result<Theory, Halt>
    ensures { Tries (with_all theory.now facts.now) result }
{
    let mut more = theory.copy(alloc)?;
    let mut rest = facts;
    'facts: while let [fact, others @ ..] = rest {
        let name = &fact.0;
        if has_fact(&more, name.as_str()) {
            drop(more);
            return Err(taken(alloc, name.as_str()));
        }
        let next = with_listed(alloc, &more, fact);
        drop(more);
        more = next?;
        rest = others;
    }
    Ok(more)
}

/// What is reported of facts that were loaded.
fn loaded_reports(
    alloc: Global,
    name: &Spot,
    facts: &[ListedFact],
) -> Result<Items<Report>, AllocError>
    ensures { IfOk result (λ reports. reports
        ≡ report kinds.Loaded name.now.range [] (decimal (length facts.now)) ∷ []) }
{
    let report = loaded_report(alloc, name, facts.len())?;
    let mut reports = Items::new(alloc);
    reports.push(report)?;
    Ok(reports)
}

/// What loading these facts makes, unless a name is taken.
fn loaded(alloc: Global, theory: &Theory, name: &Spot, facts: &[ListedFact]) -> Result<Effect, Halt>
    ensures { Tries (and_then (with_all theory.now facts.now)
        (λ more. Ok (loaded name.now facts.now more))) result }
{
    let more = with_all(alloc, theory, facts)?;
    match loaded_reports(alloc, name, facts) {
        Ok(reports) => Ok(makes(Place::Theory(more), reports)),
        Err(_) => {
            drop(more);
            Err(Halt::NoMemory)
        }
    }
}

/// `load`, with the text of the blob where there is one. The error is the first that holds: no
/// blob, a bad line, a taken name.
pub fn load_made(
    alloc: Global,
    blob: Option<&[char]>,
    theory: &Theory,
    name: &Spot,
) -> Result<Effect, Halt>
    ensures { Tries (load_made (option_copied blob.entry) theory.now name.now) result }
{
    let Some(text) = blob else {
        return Err(named_refusal(alloc, "unknown blob ", name.text.as_slice()));
    };
    let facts = facts_or(alloc, text)?;
    let effect = loaded(alloc, theory, name, facts.as_slice());
    drop(facts);
    effect
}
