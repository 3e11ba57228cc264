//! Facts that are cited.
ghost use Rattle.std.specs.Prelude.{◌≡◌, IfOk, find};
ghost use Rattle.std.specs.Option.{option_copied};
ghost use Rattle.suggest_rules.specs.Search.{says_same, citing, cited};

use nj_formula::{Formula, Shared};
use pide_base::Range;
use proof_terms::{Cite, Term};
use std::alloc::{AllocError, Global};
use suggest_rules::Names;
use theory_ctx::Local;

/// Whether the formulas are equal up to bound names.
pub(crate) fn says_same(one: &Formula, other: &Formula) -> bool
    ensures { result ≡ says_same one.now other.now }
{
    one.same(other)
}

/// The fact by its name, which stands nowhere yet.
pub(crate) fn citing(alloc: Global, local: &Local) -> Result<Term, AllocError>
    ensures { IfOk result (λ term. term ≡ citing local.now) }
{
    let name = local.name.copy(alloc)?;
    let range = Range { start: 0, stop: 0 };
    Ok(Term::Fact(Cite { name, range }))
}

/// The same, to be a part of a rule.
pub(crate) fn fact_of(alloc: Global, local: &Local) -> Result<Shared<Term>, AllocError>
    ensures { IfOk result (λ fact. fact ≡ citing local.now) }
{
    Shared::new(alloc, citing(alloc, local)?)
}

/// The first of the facts that says the goal.
fn saying<'a>(names: &'a Names, goal: &Formula) -> Option<&'a Local>
    ensures { option_copied result
        ≡ find (λ local. says_same local.formula goal.now) names.now.facts }
{
    for local in names.facts.iter() {
        if says_same(&local.formula, goal) {
            return Some(local);
        }
    }
    None
}

/// The first fact that says the goal, cited.
pub(crate) fn cited(
    alloc: Global,
    names: &Names,
    goal: &Formula,
) -> Result<Option<Term>, AllocError>
    ensures { IfOk result (λ term. term ≡ cited names.now goal.now) }
{
    match saying(names, goal) {
        Some(local) => Ok(Some(citing(alloc, local)?)),
        None => Ok(None),
    }
}
