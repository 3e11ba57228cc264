//! Rules that eliminate: their parts, by what they quote. Most of them fit each goal.

ghost use Rattle.std.specs.Prelude.{◌≡◌, IfOk, IsTrue, Ok};
ghost use Rattle.nj_formula.specs.declared.argument.Argument.TheVariants.{Free};
ghost use Rattle.nj_formula.specs.declared.formula.Formula.{out-Formula};
ghost use Rattle.nj_formula.specs.declared.formula.Formula.TheVariants.{Or, Implies, Not};
ghost use Rattle.nj_formula.specs.Closed.{is_closed};
ghost use Rattle.nj_formula.specs.FormulaInstance.{formula_instance};
ghost use Rattle.nj_formula.specs.Meaning.{meaning};
ghost use Rattle.proof_checks.specs.declared.step.Step.TheVariants.{One, Two};
ghost use Rattle.proof_checks.specs.declared.step.Binary.TheVariants as B;
ghost use Rattle.proof_checks.specs.declared.step.Unary.TheVariants as U;
ghost use Rattle.proof_checks.specs.Answers.{Plans};
ghost use Rattle.proof_checks.specs.Parts.{part, under};
ghost use Rattle.proof_checks.specs.Rows as row;
ghost use Rattle.proof_checks.specs.Statements.{is_same};

use crate::halt::{Halt, misfit};
use crate::parts::{assuming, at_name, at_term, part, shared, under, whole};
use crate::same::is_same;
use crate::step::{Binary, Part, Step, Unary, one, three, two};
use joined_results::{both, each_of_three};
use nj_formula::{Formula, Name, ObjTerm, Shared};
use nj_kernel::Rule;
use proof_terms::Term;
use std::alloc::{AllocError, Global};

/// `(conjE1 "B" t)`
pub(crate) fn conj_e1(
    alloc: Global,
    b: &Shared<Formula>,
    t: &Shared<Term>,
    goal: &Formula,
) -> Result<Shared<Step>, Halt>
    ensures { Plans result (Ok (row.conj_e1 b.now t.now goal.now)) }
{
    let (t, (b, goal)) = both(t.copy(), both(b.copy(), shared(alloc, goal)))?;
    Ok(one(alloc, Unary::ConjE1, whole(t, Formula::And(goal, b)))?)
}

/// `(conjE2 "A" t)`
pub(crate) fn conj_e2(
    alloc: Global,
    a: &Shared<Formula>,
    t: &Shared<Term>,
    goal: &Formula,
) -> Result<Shared<Step>, Halt>
    ensures { Plans result (Ok (row.conj_e2 a.now t.now goal.now)) }
{
    let (t, (a, goal)) = both(t.copy(), both(a.copy(), shared(alloc, goal)))?;
    Ok(one(alloc, Unary::ConjE2, whole(t, Formula::And(a, goal)))?)
}

/// `(impE "A" t u)`
pub(crate) fn imp_e(
    alloc: Global,
    a: &Shared<Formula>,
    t: &Shared<Term>,
    u: &Shared<Term>,
    goal: &Formula,
) -> Result<Shared<Step>, Halt>
    ensures { Plans result (Ok (row.imp_e a.now t.now u.now goal.now)) }
{
    let holds = part(alloc, u, a.get());
    let ((t, implies), holds) = both(both(t.copy(), implied(alloc, a, goal)), holds)?;
    Ok(two(alloc, Binary::ImpE, whole(t, implies), holds)?)
}

/// The implication of the goal.
fn implied(alloc: Global, a: &Shared<Formula>, goal: &Formula) -> Result<Formula, AllocError>
    ensures { IfOk result (λ f. f ≡ Implies a.now goal.now) }
{
    let (a, goal) = both(a.copy(), shared(alloc, goal))?;
    Ok(Formula::Implies(a, goal))
}

/// `(notE "A" t u)`
pub(crate) fn not_e(
    alloc: Global,
    a: &Shared<Formula>,
    t: &Shared<Term>,
    u: &Shared<Term>,
    goal: &Formula,
) -> Result<Shared<Step>, Halt>
    ensures { Plans result (row.not_e a.now t.now u.now (out-Formula goal.now)) }
{
    match goal {
        Formula::False => Ok(denied(alloc, a, t, u)?),
        _ => Err(misfit(Rule::NotE)),
    }
}

/// The parts of notE, which show the negation and what it denies.
fn denied(
    alloc: Global,
    a: &Shared<Formula>,
    t: &Shared<Term>,
    u: &Shared<Term>,
) -> Result<Shared<Step>, AllocError>
    ensures { IfOk result (λ step. step
        ≡ Two B.NotE (part t.now (Not a.now)) (part u.now a.now)) }
{
    let holds = part(alloc, u, a.get());
    let ((t, denied), holds) = both(both(t.copy(), a.copy()), holds)?;
    two(alloc, Binary::NotE, whole(t, Formula::Not(denied)), holds)
}

/// `(falseE t)`
pub(crate) fn false_e(alloc: Global, t: &Shared<Term>) -> Result<Shared<Step>, Halt>
    ensures { Plans result (Ok (row.false_e t.now)) }
{
    let t = t.copy()?;
    Ok(one(alloc, Unary::FalseE, whole(t, Formula::False))?)
}

/// `(allE "ALL y. P" "s" t)`
pub(crate) fn all_e(
    alloc: Global,
    quoted: &Formula,
    s: &Shared<ObjTerm>,
    t: &Shared<Term>,
    goal: &Formula,
) -> Result<Shared<Step>, Halt>
    ensures { Plans result (row.all_e quoted.now s.now t.now goal.now (out-Formula quoted.now)) }
{
    match quoted {
        Formula::All(_, body) => {
            let fits = is_instance(alloc, goal, body, s)?;
            if fits {
                Ok(of_all(alloc, quoted, s, t)?)
            } else {
                Err(misfit(Rule::AllE))
            }
        }
        _ => Err(misfit(Rule::AllE)),
    }
}

/// Whether the goal is the body at the term.
fn is_instance(
    alloc: Global,
    goal: &Formula,
    body: &Shared<Formula>,
    s: &Shared<ObjTerm>,
) -> Result<bool, AllocError>
    ensures same { IfOk result (λ is. is
        ≡ is_same (meaning goal.now) (meaning (formula_instance s.now body.now))) }
    ensures closed { IfOk result (λ _. IsTrue (is_closed s.now)) }
{
    let at_s = at_term(alloc, body, s)?;
    Ok(is_same(goal, &at_s))
}

/// The part of allE, which shows what is quoted.
fn of_all(
    alloc: Global,
    quoted: &Formula,
    s: &Shared<ObjTerm>,
    t: &Shared<Term>,
) -> Result<Shared<Step>, AllocError>
    ensures { IfOk result (λ step. step ≡ One (U.AllE s.now) (part t.now quoted.now)) }
{
    let (s, shown) = both(s.copy(), part(alloc, t, quoted))?;
    one(alloc, Unary::AllE(s), shown)
}

/// `(disjE "A" "B" t x u y v)`
pub(crate) fn disj_e(
    alloc: Global,
    a: &Shared<Formula>,
    b: &Shared<Formula>,
    t: &Shared<Term>,
    x: &Name,
    u: &Shared<Term>,
    y: &Name,
    v: &Shared<Term>,
    goal: &Formula,
) -> Result<Shared<Step>, Halt>
    ensures { Plans result (Ok (row.disj_e a.now b.now t.now x.now u.now y.now v.now goal.now)) }
{
    let left = under(alloc, x, a.get(), u, goal);
    let right = under(alloc, y, b.get(), v, goal);
    let (first, left, right) = each_of_three(either(alloc, a, b, t), left, right)?;
    Ok(three(alloc, first, left, right)?)
}

/// The part of disjE that shows the disjunction.
fn either(
    alloc: Global,
    a: &Shared<Formula>,
    b: &Shared<Formula>,
    t: &Shared<Term>,
) -> Result<Part, AllocError>
    ensures { IfOk result (λ p. p ≡ part t.now (Or a.now b.now)) }
{
    let (t, (a, b)) = both(t.copy(), both(a.copy(), b.copy()))?;
    Ok(whole(t, Formula::Or(a, b)))
}

/// `(exE "EX y. P" x h t u)`
pub(crate) fn ex_e(
    alloc: Global,
    quoted: &Formula,
    x: &Name,
    h: &Name,
    t: &Shared<Term>,
    u: &Shared<Term>,
    goal: &Formula,
) -> Result<Shared<Step>, Halt>
    ensures { Plans result (row.ex_e quoted.now x.now h.now t.now u.now goal.now
        (out-Formula quoted.now)) }
{
    match quoted {
        Formula::Exists(_, body) => Ok(chosen(alloc, quoted, body, x, h, t, u, goal)?),
        _ => Err(misfit(Rule::ExE)),
    }
}

/// The parts of exE, which show what is quoted, and the goal from the body at the name.
fn chosen(
    alloc: Global,
    quoted: &Formula,
    body: &Shared<Formula>,
    x: &Name,
    h: &Name,
    t: &Shared<Term>,
    u: &Shared<Term>,
    goal: &Formula,
) -> Result<Shared<Step>, AllocError>
    ensures { IfOk result (λ step. step ≡ Two (B.ExE x.now) (part t.now quoted.now)
        (under h.now (formula_instance (Free x.now) body.now) u.now goal.now)) }
{
    let some = part(alloc, t, quoted);
    let rest = witnessed(alloc, x, h, body, u, goal);
    let (x, some, rest) = each_of_three(x.copy(alloc), some, rest)?;
    two(alloc, Binary::ExE(x), some, rest)
}

/// The part of exE that shows the goal from the body at the name.
fn witnessed(
    alloc: Global,
    x: &Name,
    h: &Name,
    body: &Shared<Formula>,
    u: &Shared<Term>,
    goal: &Formula,
) -> Result<Part, AllocError>
    ensures { IfOk result (λ p. p
        ≡ under h.now (formula_instance (Free x.now) body.now) u.now goal.now) }
{
    let own = both(h.copy(alloc), at_name(alloc, body.get(), x));
    let ((name, formula), (u, goal)) = both(own, both(u.copy(), goal.copy(alloc)))?;
    Ok(assuming(name, formula, u, goal))
}
