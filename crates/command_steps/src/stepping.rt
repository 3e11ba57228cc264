//! A proof after each of its commands, or why the command is refused.
ghost use Rattle.std.specs.Prelude.{◌≡◌, IfOk, Result};
ghost use Rattle.std.specs.Option.{option_copied};
ghost use Rattle.proof_state.specs.Answers.{Gives, left};
ghost use Rattle.proof_state.specs.declared.fault.ProofFault.{ProofFault};
ghost use Rattle.proof_state.specs.declared.levels.Levels.{Levels};
ghost use Rattle.proof_state.specs.Steps.{step, proof as opens, fix, assume, have, show};
ghost use Rattle.proof_state.specs.Steps.{next, qed, by};
ghost use Rattle.isar_rules.specs.Proofs.{levels_or};
ghost use Rattle.command_steps.specs.Tries.{Tries};

use crate::halt::Halt;
use crate::refusing::refused;
use crate::texts::ascii;
use joined_results::both;
use nj_formula::Formula;
use proof_state::{Proof, ProofFault};
use std::alloc::{AllocError, Global};
use theory_ctx::Ctx;

/// What a command left of a proof, by its answer.
fn gone_on<T: Drop>(
    alloc: Global,
    answer: Result<T, ProofFault>,
    after: Proof,
) -> Result<Proof, Halt>
    ensures { (stepped : Result Levels ProofFault) → Gives stepped (left answer after)
        → Tries (levels_or stepped) result }
{
    match answer {
        Ok(_) => Ok(after),
        Err(fault) => {
            drop(after);
            Err(refused(alloc, fault))
        }
    }
}

/// A copy of the proof, with the formula that a command gives to it.
fn copied_for(
    alloc: Global,
    proof: &Proof,
    formula: Formula,
) -> Result<(Proof, Formula), AllocError>
    ensures { IfOk result (λ both. both ≡ (proof.now, formula)) }
{
    let (copy, formula) = both(proof.copy(alloc), Ok(formula))?;
    Ok((copy, formula))
}

/// `proof`
pub(crate) fn opened(alloc: Global, proof: &Proof, dash: bool) -> Result<Proof, Halt>
    ensures { Tries (levels_or (step (opens dash) proof.now)) result }
{
    let mut after = proof.copy(alloc)?;
    let answer = after.proof(alloc, dash);
    gone_on(alloc, answer, after)
}

/// `by`
pub(crate) fn closed(alloc: Global, proof: &Proof) -> Result<Proof, Halt>
    ensures { Tries (levels_or (step by proof.now)) result }
{
    match proof.closed(alloc) {
        Ok(after) => Ok(after),
        Err(fault) => Err(refused(alloc, fault)),
    }
}

/// `fix`. The name has to be in ASCII.
pub(crate) fn fixed(alloc: Global, proof: &Proof, facts: &Ctx, name: &[char]) -> Result<Proof, Halt>
    ensures { Tries (levels_or (step (fix facts.now name.now) proof.now)) result }
{
    let name = ascii(alloc, name)?;
    let mut after = proof.copy(alloc)?;
    let answer = after.fix(alloc, name.as_str(), facts);
    gone_on(alloc, answer, after)
}

/// `assume`
pub(crate) fn assumed(
    alloc: Global,
    proof: &Proof,
    name: Option<&str>,
    formula: Formula,
) -> Result<Proof, Halt>
    ensures { Tries (levels_or (step (assume (option_copied name.entry) formula) proof.now)) result }
{
    let (mut after, formula) = copied_for(alloc, proof, formula)?;
    let answer = after.assume(alloc, name, formula);
    gone_on(alloc, answer, after)
}

/// `have`
pub(crate) fn claimed(
    alloc: Global,
    proof: &Proof,
    name: Option<&str>,
    formula: Formula,
) -> Result<Proof, Halt>
    ensures { Tries (levels_or (step (have (option_copied name.entry) formula) proof.now)) result }
{
    let (mut after, formula) = copied_for(alloc, proof, formula)?;
    let answer = after.have(alloc, name, formula);
    gone_on(alloc, answer, after)
}

/// `show`
pub(crate) fn shown(alloc: Global, proof: &Proof, formula: Formula) -> Result<Proof, Halt>
    ensures { Tries (levels_or (step (show formula) proof.now)) result }
{
    let (mut after, formula) = copied_for(alloc, proof, formula)?;
    let answer = after.show(alloc, formula);
    gone_on(alloc, answer, after)
}

/// `next`
pub(crate) fn begun_anew(alloc: Global, proof: &Proof) -> Result<Proof, Halt>
    ensures { Tries (levels_or (step next proof.now)) result }
{
    let mut after = proof.copy(alloc)?;
    let answer = after.next(alloc);
    gone_on(alloc, answer, after)
}

/// `qed`
pub(crate) fn finished(alloc: Global, proof: &Proof) -> Result<Proof, Halt>
    ensures { Tries (levels_or (step qed proof.now)) result }
{
    let mut after = proof.copy(alloc)?;
    let answer = after.qed(alloc);
    gone_on(alloc, answer, after)
}
