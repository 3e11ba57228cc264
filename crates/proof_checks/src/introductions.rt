//! Rules that introduce: their parts, by the shape of the goal.

ghost use Rattle.std.specs.Prelude.{◌≡◌, IfOk, IsTrue};
ghost use Rattle.nj_formula.specs.declared.argument.Argument.TheVariants.{Free};
ghost use Rattle.nj_formula.specs.declared.formula.Formula.{out-Formula};
ghost use Rattle.nj_formula.specs.Closed.{is_closed};
ghost use Rattle.nj_formula.specs.FormulaInstance.{formula_instance};
ghost use Rattle.proof_checks.specs.declared.step.Step.TheVariants.{One, Two};
ghost use Rattle.proof_checks.specs.declared.step.Binary.TheVariants as B;
ghost use Rattle.proof_checks.specs.declared.step.Unary.TheVariants as U;
ghost use Rattle.proof_checks.specs.Answers.{Plans};
ghost use Rattle.proof_checks.specs.Parts.{part};
ghost use Rattle.proof_checks.specs.Rows as row;

use crate::halt::{Halt, misfit};
use crate::parts::{at_name, at_term, part, under, whole};
use crate::step::{Binary, Step, Unary, one, two};
use joined_results::both;
use nj_formula::{Formula, Name, ObjTerm, Shared};
use nj_kernel::Rule;
use proof_terms::Term;
use std::alloc::{AllocError, Global};

/// `(conjI t u)`
pub(crate) fn conj_i(
    alloc: Global,
    t: &Shared<Term>,
    u: &Shared<Term>,
    goal: &Formula,
) -> Result<Shared<Step>, Halt>
    ensures { Plans result (row.conj_i t.now u.now (out-Formula goal.now)) }
{
    match goal {
        Formula::And(a, b) => Ok(each(alloc, t, a, u, b)?),
        _ => Err(misfit(Rule::ConjI)),
    }
}

/// The parts of conjI, which show the two.
fn each(
    alloc: Global,
    t: &Shared<Term>,
    a: &Shared<Formula>,
    u: &Shared<Term>,
    b: &Shared<Formula>,
) -> Result<Shared<Step>, AllocError>
    ensures { IfOk result (λ step. step
        ≡ Two B.ConjI (part t.now a.now) (part u.now b.now)) }
{
    let (left, right) = both(part(alloc, t, a.get()), part(alloc, u, b.get()))?;
    two(alloc, Binary::ConjI, left, right)
}

/// `(disjI1 t)`
pub(crate) fn disj_i1(alloc: Global, t: &Shared<Term>, goal: &Formula) -> Result<Shared<Step>, Halt>
    ensures { Plans result (row.disj_i1 t.now (out-Formula goal.now)) }
{
    match goal {
        Formula::Or(a, b) => {
            let (other, shown) = both(b.copy(), part(alloc, t, a.get()))?;
            Ok(one(alloc, Unary::DisjI1(other), shown)?)
        }
        _ => Err(misfit(Rule::DisjI1)),
    }
}

/// `(disjI2 t)`
pub(crate) fn disj_i2(alloc: Global, t: &Shared<Term>, goal: &Formula) -> Result<Shared<Step>, Halt>
    ensures { Plans result (row.disj_i2 t.now (out-Formula goal.now)) }
{
    match goal {
        Formula::Or(a, b) => {
            let (other, shown) = both(a.copy(), part(alloc, t, b.get()))?;
            Ok(one(alloc, Unary::DisjI2(other), shown)?)
        }
        _ => Err(misfit(Rule::DisjI2)),
    }
}

/// `(impI x t)`
pub(crate) fn imp_i(
    alloc: Global,
    x: &Name,
    t: &Shared<Term>,
    goal: &Formula,
) -> Result<Shared<Step>, Halt>
    ensures { Plans result (row.imp_i x.now t.now (out-Formula goal.now)) }
{
    match goal {
        Formula::Implies(a, b) => {
            let shown = under(alloc, x, a.get(), t, b.get());
            let (discharged, shown) = both(a.copy(), shown)?;
            Ok(one(alloc, Unary::ImpI(discharged), shown)?)
        }
        _ => Err(misfit(Rule::ImpI)),
    }
}

/// `(notI x t)`
pub(crate) fn not_i(
    alloc: Global,
    x: &Name,
    t: &Shared<Term>,
    goal: &Formula,
) -> Result<Shared<Step>, Halt>
    ensures { Plans result (row.not_i x.now t.now (out-Formula goal.now)) }
{
    match goal {
        Formula::Not(a) => {
            let shown = under(alloc, x, a.get(), t, &Formula::False);
            let (discharged, shown) = both(a.copy(), shown)?;
            Ok(one(alloc, Unary::NotI(discharged), shown)?)
        }
        _ => Err(misfit(Rule::NotI)),
    }
}

/// `(allI x t)`
pub(crate) fn all_i(
    alloc: Global,
    x: &Name,
    t: &Shared<Term>,
    goal: &Formula,
) -> Result<Shared<Step>, Halt>
    ensures { Plans result (row.all_i x.now t.now (out-Formula goal.now)) }
{
    match goal {
        Formula::All(_, body) => Ok(for_any(alloc, x, t, body)?),
        _ => Err(misfit(Rule::AllI)),
    }
}

/// The part of allI, which shows the body at the name.
fn for_any(
    alloc: Global,
    x: &Name,
    t: &Shared<Term>,
    body: &Shared<Formula>,
) -> Result<Shared<Step>, AllocError>
    ensures { IfOk result (λ step. step
        ≡ One (U.AllI x.now) (part t.now (formula_instance (Free x.now) body.now))) }
{
    let at_x = at_name(alloc, body.get(), x);
    let (name, (t, at_x)) = both(x.copy(alloc), both(t.copy(), at_x))?;
    one(alloc, Unary::AllI(name), whole(t, at_x))
}

/// `(exI "s" t)`
pub(crate) fn ex_i(
    alloc: Global,
    s: &Shared<ObjTerm>,
    t: &Shared<Term>,
    goal: &Formula,
) -> Result<Shared<Step>, Halt>
    ensures { Plans result (row.ex_i s.now t.now (out-Formula goal.now)) }
{
    match goal {
        Formula::Exists(_, body) => Ok(for_some(alloc, s, t, body)?),
        _ => Err(misfit(Rule::ExI)),
    }
}

/// The part of exI, which shows the body at the term.
fn for_some(
    alloc: Global,
    s: &Shared<ObjTerm>,
    t: &Shared<Term>,
    body: &Shared<Formula>,
) -> Result<Shared<Step>, AllocError>
    ensures shown { IfOk result (λ step. step
        ≡ One (U.ExI s.now) (part t.now (formula_instance s.now body.now))) }
    ensures closed { IfOk result (λ _. IsTrue (is_closed s.now)) }
{
    let at_s = at_term(alloc, body, s);
    let (s, (t, at_s)) = both(s.copy(), both(t.copy(), at_s))?;
    one(alloc, Unary::ExI(s), whole(t, at_s))
}
