ghost use Rattle.std.specs.Prelude.{◌≡◌};
ghost use Rattle.nj_formula.specs.Meaning.{meaning};
ghost use Rattle.proof_checks.specs.Answers.{Answers, AssumesOnly, Counts};
ghost use Rattle.proof_checks.specs.Checks.{checked};
ghost use Rattle.proof_checks.specs.Questions.{AsksEach, rules_judged};
ghost use Rattle.proof_checks.specs.Scopes.{Stands};
ghost use Rattle.proof_checks.specs.Told.{Tells};

use crate::checked::Checked;
use crate::halt::Halt;
use crate::proving::proved;
use nj_formula::Formula;
use nj_kernel::Thm;
use pide_base::Stop;
use proof_terms::{Term, deepest};
use std::alloc::Global;
use theory_ctx::Scope;

/// Checks the term against the goal: `Proved` with a theorem of the goal that assumes formulas of
/// the scope alone, or `Wrong` with the first fault. A rule is judged before its parts, the parts
/// from the left, and whether a name is fresh after the parts. `stop` is asked once before each
/// rule, and never again once it answered yes; `Stopped` comes only where it did.
pub fn check<P: Stop>(
    alloc: Global,
    term: &Term,
    goal: &Formula,
    scope: &Scope,
    stop: &mut P,
) -> Checked
    ensures answer { Answers result (checked term.now goal.now scope.now) (meaning goal.now) }
    ensures assumes { AssumesOnly result (Stands scope.now) }
    ensures counts { Counts result (P.yeses stop.old) (P.yeses stop.new) }
    ensures asks { AsksEach result (rules_judged term.now goal.now scope.now)
        (P.questions stop.old) (P.questions stop.new) }
{
    let mut within = scope.inner(alloc);
    told(proved(alloc, term, goal, &mut within, stop, deepest()))
}

fn told(given: Result<Thm, Halt>) -> Checked
    ensures { Tells given result }
{
    match given {
        Ok(theorem) => Checked::Proved(theorem),
        Err(Halt::Wrong(fault)) => Checked::Wrong(fault),
        Err(Halt::Stopped) => Checked::Stopped,
        Err(Halt::NoMemory) => Checked::NoMemory,
    }
}
