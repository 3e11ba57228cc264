//! What a term comes to.

ghost use Rattle.std.specs.Prelude.{Ok};
ghost use Rattle.proof_terms.specs.declared.term.Term.{out-Term};
ghost use Rattle.proof_checks.specs.Answers.{Plans};
ghost use Rattle.proof_checks.specs.Forms.{IsQuantified, IsImplied, IsDisjoined};
ghost use Rattle.proof_checks.specs.Rows.{step_of};
ghost use Rattle.proof_checks.specs.declared.step.Step.TheVariants.{Cited};

use crate::halt::Halt;
use crate::step::Step;
use crate::{eliminations as eliminate, introductions as introduce};
use nj_formula::{Formula, Shared};
use proof_terms::{Cite, Term};
use std::alloc::Global;

/// What the term comes to, where it is to show the goal.
#[tactic(none)]
pub(crate) fn step_of(alloc: Global, term: &Term, goal: &Formula) -> Result<Shared<Step>, Halt>
    ensures { Plans result (step_of (out-Term term.now) goal.now) }
{
    match term {
        Term::Fact(cite) => cited(alloc, cite),
        Term::ConjI(t, u) => introduce::conj_i(alloc, t, u, goal),
        Term::ConjE1(b, t) => eliminate::conj_e1(alloc, b, t, goal),
        Term::ConjE2(a, t) => eliminate::conj_e2(alloc, a, t, goal),
        _ => disjoined(alloc, term, goal),
    }
}

fn cited(alloc: Global, cite: &Cite) -> Result<Shared<Step>, Halt>
    ensures { Plans result (Ok (Cited cite.now)) }
{
    let cite = Cite {
        name: cite.name.copy(alloc)?,
        range: cite.range,
    };
    Ok(Shared::new(alloc, Step::Cited(cite))?)
}

/// The same where the rule is for a disjunction, or for what comes below.
#[tactic(none)]
fn disjoined(alloc: Global, term: &Term, goal: &Formula) -> Result<Shared<Step>, Halt>
    requires { IsDisjoined (out-Term term.now) }
    ensures { Plans result (step_of (out-Term term.now) goal.now) }
{
    match term {
        Term::DisjI1(t) => introduce::disj_i1(alloc, t, goal),
        Term::DisjI2(t) => introduce::disj_i2(alloc, t, goal),
        Term::DisjE(a, b, t, x, u, y, v) => { eliminate::disj_e(alloc, a, b, t, x, u, y, v, goal) }
        _ => implied(alloc, term, goal),
    }
}

/// The same where the rule is for an implication, a negation or falsity, or for what comes below.
#[tactic(none)]
fn implied(alloc: Global, term: &Term, goal: &Formula) -> Result<Shared<Step>, Halt>
    requires { IsImplied (out-Term term.now) }
    ensures { Plans result (step_of (out-Term term.now) goal.now) }
{
    match term {
        Term::ImpI(x, t) => introduce::imp_i(alloc, x, t, goal),
        Term::ImpE(a, t, u) => eliminate::imp_e(alloc, a, t, u, goal),
        Term::NotI(x, t) => introduce::not_i(alloc, x, t, goal),
        Term::NotE(a, t, u) => eliminate::not_e(alloc, a, t, u, goal),
        Term::FalseE(t) => eliminate::false_e(alloc, t),
        _ => quantified(alloc, term, goal),
    }
}

/// The same where the rule is for a quantifier.
#[tactic(none)]
fn quantified(alloc: Global, term: &Term, goal: &Formula) -> Result<Shared<Step>, Halt>
    requires { IsQuantified (out-Term term.now) }
    ensures { Plans result (step_of (out-Term term.now) goal.now) }
{
    match term {
        Term::AllI(x, t) => introduce::all_i(alloc, x, t, goal),
        Term::AllE(quoted, s, t) => eliminate::all_e(alloc, quoted.get(), s, t, goal),
        Term::ExI(s, t) => introduce::ex_i(alloc, s, t, goal),
        Term::ExE(quoted, x, h, t, u) => { eliminate::ex_e(alloc, quoted.get(), x, h, t, u, goal) }
        _ => unreachable!(),
    }
}
