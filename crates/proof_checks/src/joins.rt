//! The theorem of a rule, where its last part has been checked: the part's fault is the rule's.

ghost use Rattle.std.specs.Prelude.{◌≡◌, List, IfOk};
ghost use Rattle.nj_formula.specs.Meaning.{meaning};
ghost use Rattle.nj_formula.specs.Statement.{Statement};
ghost use Rattle.nj_kernel.specs.Sets.{members, Lists};
ghost use Rattle.nj_kernel.specs.Theorem.{assumed, shown};
ghost use Rattle.proof_checks.specs.Answers.{Gives};
ghost use Rattle.proof_checks.specs.Checks.{Found, and_then, discharged, by_one, by_two, by_three};
ghost use Rattle.proof_checks.specs.Fits.{FitsOne, FitsTwo, FitsThree};
ghost use Rattle.proof_checks.specs.Joined.{HandsOver};
ghost use Rattle.proof_checks.specs.Scopes.{remaining};

use crate::conclusions::{by_one, by_three, by_two};
use crate::halt::Halt;
use crate::step::{Binary, Part, Unary};
use nj_formula::Formula;
use nj_kernel::Thm;
use std::alloc::Global;

/// By a rule of one premise.
pub(crate) fn join_one(
    alloc: Global,
    rule: &Unary,
    goal: &Formula,
    p: &Part,
    last: Result<Thm, Halt>,
) -> Result<Thm, Halt>
    requires shown { IfOk last (λ t. shown t ≡ meaning p.now.goal) }
    requires fits { FitsOne rule.now p.now.own (meaning p.now.goal) (meaning goal.now) }
    ensures gives { (found : Found) → Gives last found (meaning p.now.goal)
        → Gives result (and_then (discharged p.now.own found) (by_one rule.now (meaning goal.now)))
        (meaning goal.now) }
    ensures hands { HandsOver last result }
{
    let t = last?;
    by_one(alloc, rule, goal, p, &t)
}

/// By a rule of two premises.
pub(crate) fn join_two(
    alloc: Global,
    rule: &Binary,
    goal: &Formula,
    p: &Part,
    t: &Thm,
    q: &Part,
    last: Result<Thm, Halt>,
) -> Result<Thm, Halt>
    requires first { shown t.now ≡ meaning p.now.goal }
    requires second { IfOk last (λ u. shown u ≡ meaning q.now.goal) }
    requires fits { FitsTwo rule.now p.now.own q.now.own (meaning p.now.goal)
        (meaning q.now.goal) (meaning goal.now) }
    ensures gives { (a : List Statement) → Lists (assumed t.now) (members a)
        → (found : Found) → Gives last found (meaning q.now.goal)
        → Gives result (and_then (discharged q.now.own found)
        (by_two rule.now (meaning p.now.goal) (meaning goal.now) (remaining p.now.own a)))
        (meaning goal.now) }
    ensures hands { HandsOver last result }
{
    let u = last?;
    by_two(alloc, rule, goal, p, t, q, &u)
}

/// By the rule disjE.
pub(crate) fn join_three(
    alloc: Global,
    goal: &Formula,
    p: &Part,
    t: &Thm,
    q: &Part,
    u: &Thm,
    r: &Part,
    last: Result<Thm, Halt>,
) -> Result<Thm, Halt>
    requires first { shown t.now ≡ meaning p.now.goal }
    requires second { shown u.now ≡ meaning q.now.goal }
    requires third { IfOk last (λ v. shown v ≡ meaning r.now.goal) }
    requires fits { FitsThree p.now.own q.now.own r.now.own (meaning p.now.goal)
        (meaning q.now.goal) (meaning r.now.goal) (meaning goal.now) }
    ensures gives { (a b : List Statement) → Lists (assumed t.now) (members a)
        → Lists (assumed u.now) (members b)
        → (found : Found) → Gives last found (meaning r.now.goal)
        → Gives result (and_then (discharged r.now.own found)
        (by_three (remaining p.now.own a) (remaining q.now.own b))) (meaning goal.now) }
    ensures hands { HandsOver last result }
{
    let v = last?;
    by_three(alloc, goal, p, t, q, u, r, &v)
}
