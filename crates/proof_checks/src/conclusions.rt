//! What the kernel's rules make of the theorems of a rule's parts.

ghost use Rattle.std.specs.Prelude.{◌≡◌, List};
ghost use Rattle.std.specs.Option.{option_copied};
ghost use Rattle.nj_formula.specs.Meaning.{meaning};
ghost use Rattle.nj_formula.specs.Statement.{Statement};
ghost use Rattle.nj_kernel.specs.Sets.{members, Lists};
ghost use Rattle.nj_kernel.specs.Theorem.{assumed, shown};
ghost use Rattle.proof_checks.specs.Answers.{Gives, NotStopped};
ghost use Rattle.proof_checks.specs.Checks.{by_one, by_two, by_three};
ghost use Rattle.proof_checks.specs.Fits.{FitsOne, FitsTwo, FitsThree, fresh_one, fresh_two};
ghost use Rattle.proof_checks.specs.Kernel.{OneAnswers, TwoAnswers, IsFit, Settles};
ghost use Rattle.proof_checks.specs.Scopes.{remaining};

use crate::halt::{Halt, not_fresh};
use crate::step::{Binary, Part, Unary};
use nj_formula::{Formula, Name};
use nj_kernel::{
    RuleError, Thm, all_e, all_i, conj_e1, conj_e2, conj_i, disj_e, disj_i1, disj_i2, ex_e, ex_i,
    false_e, imp_e, imp_i, not_e, not_i,
};
use std::alloc::Global;

impl Unary {
    /// The name that is to be fresh.
    #[tactic(auto, unfolding(crate::specs::Fits::fresh_one))]
    fn fresh(&self) -> Option<&Name>
        ensures { option_copied result ≡ fresh_one self.now }
    {
        match self {
            Unary::AllI(x) => Some(x),
            _ => None,
        }
    }

    /// The kernel's answer.
    #[tactic(auto, unfolding(crate::specs::Kernel::OneAnswers))]
    fn answer(&self, alloc: Global, goal: &Formula, t: &Thm) -> Result<Thm, RuleError>
        ensures { OneAnswers self.now (assumed t.now) (shown t.now) (meaning goal.now) result }
    {
        match self {
            Unary::ConjE1 => conj_e1(alloc, t),
            Unary::ConjE2 => conj_e2(alloc, t),
            Unary::DisjI1(b) => disj_i1(alloc, t, b.get()),
            Unary::DisjI2(a) => disj_i2(alloc, t, a.get()),
            Unary::ImpI(a) => imp_i(alloc, a.get(), t),
            Unary::NotI(a) => not_i(alloc, a.get(), t),
            Unary::FalseE => false_e(alloc, t, goal),
            Unary::AllI(x) => all_i(alloc, x.as_str(), t, goal),
            Unary::AllE(s) => all_e(alloc, t, s.get()),
            Unary::ExI(s) => ex_i(alloc, s.get(), t, goal),
        }
    }
}

impl Binary {
    /// The name that is to be fresh.
    #[tactic(auto, unfolding(crate::specs::Fits::fresh_two))]
    fn fresh(&self) -> Option<&Name>
        ensures { option_copied result ≡ fresh_two self.now }
    {
        match self {
            Binary::ExE(x) => Some(x),
            _ => None,
        }
    }

    /// The kernel's answer.
    #[tactic(auto, unfolding(crate::specs::Kernel::TwoAnswers))]
    fn answer(&self, alloc: Global, t: &Thm, u: &Thm) -> Result<Thm, RuleError>
        ensures { TwoAnswers self.now (assumed t.now) (shown t.now) (assumed u.now) (shown u.now)
            result }
    {
        match self {
            Binary::ConjI => conj_i(alloc, t, u),
            Binary::ImpE => imp_e(alloc, t, u),
            Binary::NotE => not_e(alloc, t, u),
            Binary::ExE(x) => ex_e(alloc, x.as_str(), t, u),
        }
    }
}

/// The kernel's answer, where a premise is refused only for the name that is to be fresh.
fn settle(alloc: Global, answer: Result<Thm, RuleError>, fresh: Option<&Name>) -> Result<Thm, Halt>
    requires { IsFit (option_copied fresh) answer }
    ensures { Settles (option_copied fresh.entry) answer result }
{
    match answer {
        Ok(theorem) => Ok(theorem),
        Err(RuleError::NoMemory) => Err(Halt::NoMemory),
        Err(RuleError::Fault(_)) => match fresh {
            Some(x) => Err(not_fresh(x.copy(alloc)?)),
            None => unreachable!(),
        },
    }
}

/// The goal, by a rule of one premise.
pub(crate) fn by_one(
    alloc: Global,
    rule: &Unary,
    goal: &Formula,
    p: &Part,
    t: &Thm,
) -> Result<Thm, Halt>
    requires shown { shown t.now ≡ meaning p.now.goal }
    requires fits { FitsOne rule.now p.now.own (meaning p.now.goal) (meaning goal.now) }
    ensures gives { (s : List Statement) → Lists (assumed t.now) (members s)
        → Gives result (by_one rule.now (meaning goal.now) (remaining p.now.own s))
        (meaning goal.now) }
    ensures runs { NotStopped result }
{
    settle(alloc, rule.answer(alloc, goal, t), rule.fresh())
}

/// The goal, by a rule of two premises.
pub(crate) fn by_two(
    alloc: Global,
    rule: &Binary,
    goal: &Formula,
    p: &Part,
    t: &Thm,
    q: &Part,
    u: &Thm,
) -> Result<Thm, Halt>
    requires first { shown t.now ≡ meaning p.now.goal }
    requires second { shown u.now ≡ meaning q.now.goal }
    requires fits { FitsTwo rule.now p.now.own q.now.own (meaning p.now.goal)
        (meaning q.now.goal) (meaning goal.now) }
    ensures gives { (a b : List Statement) → Lists (assumed t.now) (members a)
        → Lists (assumed u.now) (members b)
        → Gives result (by_two rule.now (meaning p.now.goal) (meaning goal.now)
        (remaining p.now.own a) (remaining q.now.own b)) (meaning goal.now) }
    ensures runs { NotStopped result }
{
    settle(alloc, rule.answer(alloc, t, u), rule.fresh())
}

/// The goal, by the rule disjE.
pub(crate) fn by_three(
    alloc: Global,
    goal: &Formula,
    p: &Part,
    t: &Thm,
    q: &Part,
    u: &Thm,
    r: &Part,
    v: &Thm,
) -> Result<Thm, Halt>
    requires first { shown t.now ≡ meaning p.now.goal }
    requires second { shown u.now ≡ meaning q.now.goal }
    requires third { shown v.now ≡ meaning r.now.goal }
    requires fits { FitsThree p.now.own q.now.own r.now.own (meaning p.now.goal)
        (meaning q.now.goal) (meaning r.now.goal) (meaning goal.now) }
    ensures gives { (a b d : List Statement) → Lists (assumed t.now) (members a)
        → Lists (assumed u.now) (members b) → Lists (assumed v.now) (members d)
        → Gives result (by_three (remaining p.now.own a) (remaining q.now.own b)
        (remaining r.now.own d)) (meaning goal.now) }
    ensures runs { NotStopped result }
{
    settle(alloc, disj_e(alloc, t, u, v), None)
}
