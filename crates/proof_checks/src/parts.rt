ghost use Rattle.std.specs.Prelude.{◌≡◌, IfOk, IsTrue};
ghost use Rattle.nj_formula.specs.declared.argument.Argument.TheVariants.{Free};
ghost use Rattle.nj_formula.specs.Closed.{is_closed};
ghost use Rattle.nj_formula.specs.FormulaInstance.{formula_instance};
ghost use Rattle.proof_checks.specs.Parts.{part, under};

use crate::step::Part;
use joined_results::both;
use nj_formula::{Formula, Name, ObjTerm, Shared};
use proof_terms::Term;
use std::alloc::{AllocError, Global};
use theory_ctx::Local;

/// A part that shows the goal.
pub(crate) fn part(alloc: Global, term: &Shared<Term>, goal: &Formula) -> Result<Part, AllocError>
    ensures { IfOk result (λ p. p ≡ part term.now goal.now) }
{
    let (term, goal) = both(term.copy(), goal.copy(alloc))?;
    Ok(whole(term, goal))
}

/// A part that shows the goal, where both are handed in.
pub(crate) fn whole(term: Shared<Term>, goal: Formula) -> Part
    ensures { result ≡ part term goal }
{
    Part {
        term,
        goal,
        own: None,
    }
}

/// A part that shows the goal, where the formula is assumed under this name.
pub(crate) fn under(
    alloc: Global,
    name: &Name,
    assumption: &Formula,
    term: &Shared<Term>,
    goal: &Formula,
) -> Result<Part, AllocError>
    ensures { IfOk result (λ p. p ≡ under name.now assumption.now term.now goal.now) }
{
    let own = both(name.copy(alloc), assumption.copy(alloc));
    let ((name, formula), (term, goal)) = both(own, both(term.copy(), goal.copy(alloc)))?;
    Ok(assuming(name, formula, term, goal))
}

/// The same, where all are handed in.
pub(crate) fn assuming(name: Name, formula: Formula, term: Shared<Term>, goal: Formula) -> Part
    ensures { result ≡ under name formula term goal }
{
    Part {
        term,
        goal,
        own: Some(Local { name, formula }),
    }
}

/// A copy of the formula, to be shared.
pub(crate) fn shared(alloc: Global, formula: &Formula) -> Result<Shared<Formula>, AllocError>
    ensures { IfOk result (λ f. f ≡ formula.now) }
{
    Shared::new(alloc, formula.copy(alloc)?)
}

/// The body of a quantifier at a name.
pub(crate) fn at_name(alloc: Global, body: &Formula, x: &Name) -> Result<Formula, AllocError>
    ensures { IfOk result (λ f. f ≡ formula_instance (Free x.now) body.now) }
{
    let x = ObjTerm::name(alloc, x.as_str())?;
    body.instance(alloc, &x)
}

/// The body of a quantifier at a term.
pub(crate) fn at_term(
    alloc: Global,
    body: &Shared<Formula>,
    s: &Shared<ObjTerm>,
) -> Result<Formula, AllocError>
    ensures value { IfOk result (λ f. f ≡ formula_instance s.now body.now) }
    ensures closed { IsTrue (is_closed s.now) }
{
    body.get().instance(alloc, s.get())
}
