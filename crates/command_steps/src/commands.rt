//! What each command of proofs makes.
ghost use Rattle.std.specs.Prelude.{◌≡◌, [], Some, None, Ok};
ghost use Rattle.proof_state.specs.Steps.{proof as opens, fix, assume, have, show, next, qed, by};
ghost use Rattle.isar_rules.specs.Reports.{local_report};
ghost use Rattle.isar_rules.specs.Proofs.{with_formula, text_of_name};
ghost use Rattle.command_steps.specs.Tries.{Tries};
ghost use Rattle.command_steps.specs.Ordered.{after_order};

use crate::effect::Effect;
use crate::halt::Halt;
use crate::ordering::{local_name, quoted_in};
use crate::reports::fixed_report;
use crate::standing::{Lemma, concluded, forked};
use crate::stepping::{assumed, begun_anew, claimed, closed, finished, fixed, opened, shown};
use isar_rules::Spot;
use proof_state::Proof;
use sqlite_items::Items;
use std::alloc::Global;

/// `proof`
pub(crate) fn proof_command(
    alloc: Global,
    lemma: &Lemma,
    proof: &Proof,
    dash: bool,
) -> Result<Effect, Halt>
    ensures { Tries (after_order lemma.now.theory.now lemma.now.name.now lemma.now.goal.now
        proof.now (Ok (opens dash, []))) result }
{
    let after = opened(alloc, proof, dash)?;
    Ok(concluded(alloc, lemma, after, Items::new(alloc))?)
}

/// `by`: its proof is worked on later.
pub(crate) fn by_command(alloc: Global, lemma: &Lemma, proof: &Proof) -> Result<Effect, Halt>
    ensures { Tries (after_order lemma.now.theory.now lemma.now.name.now lemma.now.goal.now
        proof.now (Ok (by, []))) result }
{
    let after = closed(alloc, proof)?;
    Ok(forked(alloc, lemma, after)?)
}

/// `fix`
pub(crate) fn fix_command(
    alloc: Global,
    lemma: &Lemma,
    proof: &Proof,
    name: &Spot,
) -> Result<Effect, Halt>
    ensures { Tries (after_order lemma.now.theory.now lemma.now.name.now lemma.now.goal.now
        proof.now (Ok (fix lemma.now.theory.now.facts name.now.text, local_report (Some name.now))))
        result }
{
    let reports = fixed_report(alloc, name)?;
    let after = fixed(alloc, proof, &lemma.theory.facts, name.text.as_slice())?;
    Ok(concluded(alloc, lemma, after, reports)?)
}

/// `assume`
pub(crate) fn assume_command(
    alloc: Global,
    lemma: &Lemma,
    proof: &Proof,
    name: &Option<Spot>,
    quoted: &Spot,
) -> Result<Effect, Halt>
    ensures { Tries (after_order lemma.now.theory.now lemma.now.name.now lemma.now.goal.now
        proof.now (with_formula (assume (text_of_name name.now)) name.now quoted.now)) result }
{
    let text = local_name(alloc, name)?;
    let (formula, reports) = quoted_in(alloc, name, quoted)?;
    let after = assumed(alloc, proof, text.as_deref(), formula)?;
    Ok(concluded(alloc, lemma, after, reports)?)
}

/// `have`
pub(crate) fn have_command(
    alloc: Global,
    lemma: &Lemma,
    proof: &Proof,
    name: &Option<Spot>,
    quoted: &Spot,
) -> Result<Effect, Halt>
    ensures { Tries (after_order lemma.now.theory.now lemma.now.name.now lemma.now.goal.now
        proof.now (with_formula (have (text_of_name name.now)) name.now quoted.now)) result }
{
    let text = local_name(alloc, name)?;
    let (formula, reports) = quoted_in(alloc, name, quoted)?;
    let after = claimed(alloc, proof, text.as_deref(), formula)?;
    Ok(concluded(alloc, lemma, after, reports)?)
}

/// `show`
pub(crate) fn show_command(
    alloc: Global,
    lemma: &Lemma,
    proof: &Proof,
    quoted: &Spot,
) -> Result<Effect, Halt>
    ensures { Tries (after_order lemma.now.theory.now lemma.now.name.now lemma.now.goal.now
        proof.now (with_formula show None quoted.now)) result }
{
    let (formula, reports) = quoted_in(alloc, &None, quoted)?;
    let after = shown(alloc, proof, formula)?;
    Ok(concluded(alloc, lemma, after, reports)?)
}

/// `next`
pub(crate) fn next_command(alloc: Global, lemma: &Lemma, proof: &Proof) -> Result<Effect, Halt>
    ensures { Tries (after_order lemma.now.theory.now lemma.now.name.now lemma.now.goal.now
        proof.now (Ok (next, []))) result }
{
    let after = begun_anew(alloc, proof)?;
    Ok(concluded(alloc, lemma, after, Items::new(alloc))?)
}

/// `qed`
pub(crate) fn qed_command(alloc: Global, lemma: &Lemma, proof: &Proof) -> Result<Effect, Halt>
    ensures { Tries (after_order lemma.now.theory.now lemma.now.name.now lemma.now.goal.now
        proof.now (Ok (qed, []))) result }
{
    let after = finished(alloc, proof)?;
    Ok(concluded(alloc, lemma, after, Items::new(alloc))?)
}
