ghost use Rattle.std.specs.Prelude.{◌≡◌, [], ◌∷◌, IfOk, remove};
ghost use Rattle.nj_formula.specs.declared.formula.Formula.TheVariants.{False};
ghost use Rattle.proof_state.specs.declared.subgoal.Subgoal.TheVariants.{Show, AssumeShow, FixShow};
ghost use Rattle.proof_state.specs.Subgoals.{subgoals_of};

use joined_results::both;
use nj_formula::{Formula, Name, Shared};
use sqlite_items::Items;
use std::alloc::{AllocError, Global};

/// What is left to show of the goal of a block.
#[derive(Drop)]
pub(crate) enum Subgoal {
    /// The conclusion.
    Show(Shared<Formula>),
    /// The conclusion, after the assumption that it may be shown from.
    AssumeShow(Shared<Formula>, Shared<Formula>),
    /// The body of a quantifier, for a name that is fixed; the name is the quantifier's.
    FixShow(Name, Shared<Formula>),
}

impl Subgoal {
    pub(crate) fn copy(&self, alloc: Global) -> Result<Subgoal, AllocError>
        ensures { IfOk result (λ subgoal. subgoal ≡ self.now) }
    {
        match self {
            Subgoal::Show(conclusion) => show(conclusion),
            Subgoal::AssumeShow(assumption, conclusion) => assume_show(assumption, conclusion),
            Subgoal::FixShow(name, body) => fix_show(alloc, name, body),
        }
    }
}

fn show(conclusion: &Shared<Formula>) -> Result<Subgoal, AllocError>
    ensures { IfOk result (λ subgoal. subgoal ≡ Show conclusion.now) }
{
    Ok(Subgoal::Show(conclusion.copy()?))
}

fn assume_show(
    assumption: &Shared<Formula>,
    conclusion: &Shared<Formula>,
) -> Result<Subgoal, AllocError>
    ensures { IfOk result (λ subgoal. subgoal ≡ AssumeShow assumption.now conclusion.now) }
{
    let (assumption, conclusion) = both(assumption.copy(), conclusion.copy())?;
    Ok(Subgoal::AssumeShow(assumption, conclusion))
}

fn fix_show(alloc: Global, name: &Name, body: &Shared<Formula>) -> Result<Subgoal, AllocError>
    ensures { IfOk result (λ subgoal. subgoal ≡ FixShow name.now body.now) }
{
    let (name, body) = both(name.copy(alloc), body.copy())?;
    Ok(Subgoal::FixShow(name, body))
}

/// The subgoals of a goal: with a dash the goal alone, else those of its introduction.
pub(crate) fn subgoals_of(
    alloc: Global,
    goal: &Shared<Formula>,
    dash: bool,
) -> Result<Items<Subgoal>, AllocError>
    ensures { IfOk result (λ subgoals. subgoals ≡ subgoals_of dash goal.now) }
{
    if dash {
        return only(alloc, show(goal)?);
    }
    match goal.get() {
        Formula::Implies(a, b) => only(alloc, assume_show(a, b)?),
        Formula::Not(a) => denied(alloc, a),
        Formula::And(a, b) => conjuncts(alloc, a, b),
        Formula::All(name, body) => only(alloc, fix_show(alloc, name, body)?),
        Formula::False | Formula::Atom(_, _) | Formula::Or(_, _) | Formula::Exists(_, _) => {
            only(alloc, show(goal)?)
        }
    }
}

fn only(alloc: Global, subgoal: Subgoal) -> Result<Items<Subgoal>, AllocError>
    ensures { IfOk result (λ subgoals. subgoals ≡ subgoal ∷ []) }
{
    let mut subgoals = Items::new(alloc);
    subgoals.push(subgoal)?;
    Ok(subgoals)
}

/// Falsity, from the formula.
fn denied(alloc: Global, formula: &Shared<Formula>) -> Result<Items<Subgoal>, AllocError>
    ensures { IfOk result (λ subgoals. subgoals ≡ AssumeShow formula.now False ∷ []) }
{
    let falsity = Shared::new(alloc, Formula::False)?;
    only(alloc, assume_show(formula, &falsity)?)
}

/// Two conclusions.
fn conjuncts(
    alloc: Global,
    one: &Shared<Formula>,
    other: &Shared<Formula>,
) -> Result<Items<Subgoal>, AllocError>
    ensures { IfOk result (λ subgoals. subgoals ≡ Show one.now ∷ Show other.now ∷ []) }
{
    let first = only(alloc, show(one)?);
    let (mut subgoals, second) = both(first, show(other))?;
    subgoals.push(second)?;
    Ok(subgoals)
}

pub(crate) fn copies(alloc: Global, subgoals: &[Subgoal]) -> Result<Items<Subgoal>, AllocError>
    ensures { IfOk result (λ copies. copies ≡ subgoals.now) }
{
    let mut copies = Items::new(alloc);
    for subgoal in subgoals {
        copies.push(subgoal.copy(alloc)?)?;
    }
    Ok(copies)
}

/// The subgoals but for the one at this place, if there is one.
pub(crate) fn without(
    alloc: Global,
    subgoals: &[Subgoal],
    place: usize,
) -> Result<Items<Subgoal>, AllocError>
    ensures { IfOk result (λ left. left ≡ remove subgoals.now place) }
{
    let mut left = copies(alloc, subgoals)?;
    if place < left.len() {
        drop(left.remove(place));
    }
    Ok(left)
}
