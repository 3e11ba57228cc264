//! The beginning of a theory.
ghost use Rattle.std.specs.Prelude.{◌≡◌, ◌∷◌, ◌++◌, [], IfOk, OnOk, map};
ghost use Rattle.doc_nodes.specs.Names.{equal};
ghost use Rattle.isar_rules.specs.Reports.{theory_report, import_report};
ghost use Rattle.isar_rules.specs.Theories.{facts_or_bad_import, begins, beginning_effect};
ghost use Rattle.command_steps.specs.Tries.{Tries};

use crate::effect::{Effect, makes};
use crate::facts::name_of;
use crate::halt::Halt;
use crate::refusals::{named_refusal, refusal};
use crate::reports::{import_report, theory_report};
use isar_rules::{Given, Place, Spot, Theory};
use joined_results::each_of_three;
use nj_formula::Name;
use report_markup::Report;
use sqlite_items::Items;
use std::alloc::{AllocError, Global};
use std::cmp::Ordering;
use theory_ctx::Ctx;

/// Whether both are the same name.
fn is_same(name: &Name, other: &Name) -> bool
    ensures { result ≡ equal name.now other.now }
{
    match name.as_str().cmp(other.as_str()) {
        Ordering::Equal => true,
        Ordering::Less | Ordering::Greater => false,
    }
}

/// The facts to begin with, unless an import is bad.
fn facts_or(alloc: Global, given: &Given) -> Result<Ctx, Halt>
    ensures { Tries (facts_or_bad_import given.now) result }
{
    match given {
        Given::Facts(facts) => Ok(facts.copy()?),
        Given::Bad(name) => Err(named_refusal(alloc, "bad import ", name.as_slice())),
    }
}

/// The reports of a theory's name and of its imports, as they are listed.
fn heading(alloc: Global, name: &Spot, imports: &[Spot]) -> Result<Items<Report>, AllocError>
    ensures { IfOk result (λ reports. reports
        ≡ theory_report name.now ∷ map import_report imports.now) }
{
    let first = theory_report(alloc, name)?;
    let mut reports = Items::new(alloc);
    reports.push(first)?;
    let mut rest = imports;
    'imports: while let [import, more @ ..] = rest {
        add_import(alloc, &mut reports, import)?;
        rest = more;
    }
    Ok(reports)
}

fn add_import(alloc: Global, reports: &mut Items<Report>, import: &Spot) -> Result<(), AllocError>
    ensures { OnOk result (reports.new ≡ reports.old ++ import_report import.now ∷ []) }
{
    reports.push(import_report(alloc, import)?)
}

/// The theory of these facts, unless a keyword is bad.
fn begins(
    alloc: Global,
    name: &Spot,
    imports: &[Spot],
    keyword: &Option<Items<char>>,
    facts: &Ctx,
) -> Result<Effect, Halt>
    ensures { Tries (begins name.now imports.now keyword.now facts.now) result }
{
    if let Some(keyword) = keyword {
        return Err(named_refusal(alloc, "bad keyword ", keyword.as_slice()));
    }
    let own = name_of(alloc, name.text.as_slice());
    let parts = each_of_three(own, facts.copy(), heading(alloc, name, imports));
    let (name, facts, reports) = parts?;
    Ok(makes(Place::Theory(Theory { name, facts }), reports))
}

/// `theory`, in the node of this name. The error is the first that holds: another name than the
/// node's, a bad import, a bad keyword.
pub fn begun(
    alloc: Global,
    node: &Name,
    given: &Given,
    keyword: &Option<Items<char>>,
    name: &Spot,
    imports: &[Spot],
) -> Result<Effect, Halt>
    ensures { Tries (beginning_effect node.now given.now keyword.now name.now imports.now) result }
{
    let own = name_of(alloc, name.text.as_slice())?;
    let is_node = is_same(&own, node);
    drop(own);
    if !is_node {
        return Err(refusal(alloc, "theory name differs"));
    }
    let facts = facts_or(alloc, given)?;
    let effect = begins(alloc, name, imports, keyword, &facts);
    drop(facts);
    effect
}
