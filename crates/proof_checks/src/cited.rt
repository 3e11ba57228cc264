ghost use Rattle.nj_formula.specs.Meaning.{meaning};
ghost use Rattle.theory_ctx.specs.Answers.{found};
ghost use Rattle.theory_ctx.specs.Locals.{looked_in, seen};
ghost use Rattle.std.specs.Prelude.{None};
ghost use Rattle.proof_checks.specs.Answers.{Gives, NotStopped};
ghost use Rattle.proof_checks.specs.Checks.{cited};

use crate::halt::Halt;
use crate::same::is_same;
use nj_formula::Formula;
use nj_kernel::{Thm, assume};
use proof_terms::{Cite, TermFault};
use std::alloc::Global;
use theory_ctx::{InnerScope, Lookup};

/// The theorem of a cited fact, which is to say what the goal says.
pub(crate) fn cited(
    alloc: Global,
    cite: &Cite,
    goal: &Formula,
    scope: &InnerScope,
) -> Result<Thm, Halt>
    ensures gives { Gives result
        (cited cite.now.name goal.now (looked_in (seen scope.now) cite.now.name))
        (meaning goal.now) }
    ensures runs { NotStopped result }
{
    match scope.lookup(cite.name.as_str()) {
        Lookup::Found { formula, .. } => taken(alloc, cite, goal, formula),
        Lookup::Unknown => {
            let name = cite.name.copy(alloc)?;
            Err(Halt::Wrong(TermFault::UnknownName { name }))
        }
        Lookup::Ambiguous { .. } => {
            let name = cite.name.copy(alloc)?;
            Err(Halt::Wrong(TermFault::AmbiguousName { name }))
        }
    }
}

fn taken(alloc: Global, cite: &Cite, goal: &Formula, fact: &Formula) -> Result<Thm, Halt>
    ensures gives { Gives result (cited cite.now.name goal.now (found None cite.now.name fact.now))
        (meaning goal.now) }
    ensures runs { NotStopped result }
{
    if is_same(fact, goal) {
        Ok(assume(alloc, fact)?)
    } else {
        let name = cite.name.copy(alloc)?;
        Err(Halt::Wrong(TermFault::ProvesAnother { name }))
    }
}
