//! A term is taken apart, its parts are proved, and their theorems are joined.

ghost use Rattle.std.specs.Prelude.{◌≡◌, ◌≢◌, ◌-◌, IfOk, OnOk, drop};
ghost use Rattle.pide_base.specs.Faults.{risen};
ghost use Rattle.nj_formula.specs.Meaning.{meaning};
ghost use Rattle.theory_ctx.specs.Locals.{seen};
ghost use Rattle.proof_terms.specs.declared.term.Cite.{Cite};
ghost use Rattle.proof_terms.specs.declared.term.Term.{out-Term};
ghost use Rattle.proof_terms.specs.declared.term.Term.TheVariants.{Fact};
ghost use Rattle.proof_checks.specs.Answers.{Gives, Enters, Asked};
ghost use Rattle.proof_checks.specs.Checks.{checked_within, step_within, of_step};
ghost use Rattle.proof_checks.specs.Questions.{rules_in_parts, judged_within, AskedEach};
ghost use Rattle.proof_checks.specs.Fits.{FitsTwo, FitsThree, Fits, IsWithin};
ghost use Rattle.proof_checks.specs.Scopes.{inside};
ghost use Rattle.proof_checks.specs.declared.step.Step.TheVariants.{Two, Three};

use crate::cited::cited;
use crate::halt::Halt;
use crate::joins::{join_one, join_three, join_two};
use crate::step::{Binary, Part, Step};
use crate::steps::step_of;
use nj_formula::{Formula, Shared};
use nj_kernel::Thm;
use pide_base::Stop;
use proof_terms::{Term, TermFault};
use std::alloc::Global;
use theory_ctx::InnerScope;

/// What a rule comes to. Before it is asked whether to stop, and so many rules may be nested from
/// here on.
fn entered<P: Stop>(
    alloc: Global,
    term: &Term,
    goal: &Formula,
    stop: &mut P,
    left: usize,
) -> Result<Shared<Step>, Halt>
    requires { (c : Cite) → term.now ≢ Fact c }
    ensures plans { Enters result (step_within left (out-Term term.now) goal.now) }
    ensures asked { Asked result (P.yeses stop.old) (P.yeses stop.new) }
    ensures asks { P.questions stop.new ≡ risen (P.questions stop.old) }
    ensures deep { IfOk result (λ step. IsWithin step left) }
    ensures fits { IfOk result (λ step. Fits step (meaning goal.now)) }
{
    if stop.asked() {
        return Err(Halt::Stopped);
    }
    if left == 0 {
        return Err(Halt::Wrong(TermFault::ProofTooDeep));
    }
    step_of(alloc, term, goal)
}

/// Hands a theorem on, and takes back what was pushed last.
fn hand_on(scope: &mut InnerScope, given: Result<Thm, Halt>) -> Result<Thm, Halt>
    ensures given { result ≡ given }
    ensures scope { OnOk result (scope.new ≡ record scope.old { own = drop 1 scope.old.own }) }
{
    let theorem = given?;
    scope.pop();
    Ok(theorem)
}

/// The theorem of a term, in which at most so many rules are nested. A scope comes back as it was.
#[cycle(proved)]
pub(crate) fn proved<P: Stop>(
    alloc: Global,
    term: &Term,
    goal: &Formula,
    scope: &mut InnerScope,
    stop: &mut P,
    left: usize,
) -> Result<Thm, Halt>
    ensures gives { Gives result (checked_within left term.now goal.now (seen scope.old))
        (meaning goal.now) }
    ensures scope { OnOk result (scope.new ≡ scope.old) }
    ensures asked { Asked result (P.yeses stop.old) (P.yeses stop.new) }
    ensures asks { AskedEach result (judged_within left term.now goal.now (seen scope.old))
        (P.questions stop.old) (P.questions stop.new) }
{
    if let Term::Fact(cite) = term {
        return cited(alloc, cite, goal, scope);
    }
    let step = entered(alloc, term, goal, stop, left)?;
    taken(alloc, step.get(), goal, scope, stop, left)
}

/// The theorem of what a term came to.
#[cycle(proved)]
fn taken<P: Stop>(
    alloc: Global,
    step: &Step,
    goal: &Formula,
    scope: &mut InnerScope,
    stop: &mut P,
    left: usize,
) -> Result<Thm, Halt>
    requires within { IsWithin step.now left }
    requires fits { Fits step.now (meaning goal.now) }
    ensures gives { Gives result
        (of_step (checked_within (left - 1)) (seen scope.old) goal.now step.now)
        (meaning goal.now) }
    ensures scope { OnOk result (scope.new ≡ scope.old) }
    ensures asked { Asked result (P.yeses stop.old) (P.yeses stop.new) }
    ensures asks { AskedEach result
        (rules_in_parts (checked_within (left - 1)) (judged_within (left - 1)) (seen scope.old) step.now)
        (P.questions stop.old) (P.questions stop.new) }
{
    match step {
        Step::Cited(cite) => cited(alloc, cite, goal, scope),
        Step::One(rule, p) => {
            let last = premise(alloc, p, scope, stop, left - 1);
            join_one(alloc, rule, goal, p, last)
        }
        Step::Two(rule, p, q) => two(alloc, rule, p, q, goal, scope, stop, left - 1),
        Step::Three(p, q, r) => three(alloc, p, q, r, goal, scope, stop, left - 1),
    }
}

/// The theorem of a rule of two premises.
#[cycle(proved)]
fn two<P: Stop>(
    alloc: Global,
    rule: &Binary,
    p: &Part,
    q: &Part,
    goal: &Formula,
    scope: &mut InnerScope,
    stop: &mut P,
    left: usize,
) -> Result<Thm, Halt>
    requires { FitsTwo rule.now p.now.own q.now.own (meaning p.now.goal) (meaning q.now.goal)
        (meaning goal.now) }
    ensures gives { Gives result (of_step (checked_within left) (seen scope.old) goal.now
        (Two rule.now p.now q.now)) (meaning goal.now) }
    ensures scope { OnOk result (scope.new ≡ scope.old) }
    ensures asked { Asked result (P.yeses stop.old) (P.yeses stop.new) }
    ensures asks { AskedEach result
        (rules_in_parts (checked_within left) (judged_within left) (seen scope.old)
        (Two rule.now p.now q.now)) (P.questions stop.old) (P.questions stop.new) }
{
    let t = premise(alloc, p, scope, stop, left)?;
    let last = premise(alloc, q, scope, stop, left);
    let joined = join_two(alloc, rule, goal, p, &t, q, last);
    drop(t);
    joined
}

/// The theorem of the rule disjE.
#[cycle(proved)]
fn three<P: Stop>(
    alloc: Global,
    p: &Part,
    q: &Part,
    r: &Part,
    goal: &Formula,
    scope: &mut InnerScope,
    stop: &mut P,
    left: usize,
) -> Result<Thm, Halt>
    requires { FitsThree p.now.own q.now.own r.now.own (meaning p.now.goal) (meaning q.now.goal)
        (meaning r.now.goal) (meaning goal.now) }
    ensures gives { Gives result (of_step (checked_within left) (seen scope.old) goal.now
        (Three p.now q.now r.now)) (meaning goal.now) }
    ensures scope { OnOk result (scope.new ≡ scope.old) }
    ensures asked { Asked result (P.yeses stop.old) (P.yeses stop.new) }
    ensures asks { AskedEach result
        (rules_in_parts (checked_within left) (judged_within left) (seen scope.old)
        (Three p.now q.now r.now)) (P.questions stop.old) (P.questions stop.new) }
{
    let t = premise(alloc, p, scope, stop, left)?;
    let u = premise(alloc, q, scope, stop, left)?;
    let last = premise(alloc, r, scope, stop, left);
    let joined = join_three(alloc, goal, p, &t, q, &u, r, last);
    drop((t, u));
    joined
}

/// The theorem of a part, for which it may cite its own assumption.
#[cycle(proved)]
fn premise<P: Stop>(
    alloc: Global,
    part: &Part,
    scope: &mut InnerScope,
    stop: &mut P,
    left: usize,
) -> Result<Thm, Halt>
    ensures gives { Gives result (checked_within left part.now.term part.now.goal
        (inside part.now.own (seen scope.old))) (meaning part.now.goal) }
    ensures scope { OnOk result (scope.new ≡ scope.old) }
    ensures asked { Asked result (P.yeses stop.old) (P.yeses stop.new) }
    ensures asks { AskedEach result (judged_within left part.now.term part.now.goal
        (inside part.now.own (seen scope.old))) (P.questions stop.old) (P.questions stop.new) }
{
    match &part.own {
        None => proved(alloc, part.term.get(), &part.goal, scope, stop, left),
        Some(own) => {
            scope.push(alloc, &own.name, own.formula.copy(alloc)?)?;
            let given = proved(alloc, part.term.get(), &part.goal, scope, stop, left);
            hand_on(scope, given)
        }
    }
}
