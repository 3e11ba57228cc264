//! Which commands a proof allows in each of its modes.
ghost use Rattle.isar_rules.specs.Proofs.{proof_made};
ghost use Rattle.command_steps.specs.Tries.{Tries};
ghost use Rattle.command_steps.specs.Ordered.{in_prove, in_state, after_order};

use crate::commands::{
    assume_command, by_command, fix_command, have_command, next_command, proof_command,
    qed_command, show_command,
};
use crate::effect::Effect;
use crate::halt::Halt;
use crate::refusals::refusal;
use crate::standing::Lemma;
use isar_rules::Shape;
use proof_state::Proof;
use std::alloc::Global;

/// A command in mode prove.
fn in_prove(alloc: Global, lemma: &Lemma, proof: &Proof, shape: &Shape) -> Result<Effect, Halt>
    ensures { Tries (after_order lemma.now.theory.now lemma.now.name.now lemma.now.goal.now
        proof.now (in_prove shape.now)) result }
{
    match shape {
        Shape::Proof { dash } => proof_command(alloc, lemma, proof, *dash),
        Shape::By => by_command(alloc, lemma, proof),
        _ => Err(refusal(alloc, "not allowed here")),
    }
}

/// A command in mode state.
fn in_state(alloc: Global, lemma: &Lemma, proof: &Proof, shape: &Shape) -> Result<Effect, Halt>
    ensures { Tries (after_order lemma.now.theory.now lemma.now.name.now lemma.now.goal.now
        proof.now (in_state lemma.now.theory.now.facts shape.now)) result }
{
    match shape {
        Shape::Fix(name) => fix_command(alloc, lemma, proof, name),
        Shape::Assume { name, formula } => assume_command(alloc, lemma, proof, name, formula),
        Shape::Have { name, formula } => have_command(alloc, lemma, proof, name, formula),
        Shape::Show(formula) => show_command(alloc, lemma, proof, formula),
        Shape::Next => next_command(alloc, lemma, proof),
        Shape::Qed => qed_command(alloc, lemma, proof),
        _ => Err(refusal(alloc, "not allowed here")),
    }
}

/// A command in the proof of a lemma. The error is the first that holds: a command of another mode,
/// a bad formula, what `Proof` refuses. Once the proof is closed the theory has the lemma.
#[tactic(auto, using(crate::proofs::ModeLemmas::modes))]
pub fn proof_made(
    alloc: Global,
    lemma: &Lemma,
    proof: &Proof,
    shape: &Shape,
) -> Result<Effect, Halt>
    ensures { Tries (proof_made lemma.now.theory.now lemma.now.name.now lemma.now.goal.now
        proof.now shape.now) result }
{
    if proof.goal().is_some() {
        in_prove(alloc, lemma, proof, shape)
    } else if proof.is_state() {
        in_state(alloc, lemma, proof, shape)
    } else {
        Err(refusal(alloc, "not allowed here"))
    }
}
