//! What a new execution waits for.
ghost use Rattle.std.specs.Prelude.{◌≡◌, ◌&&◌, ◌∷◌, [], ℕ, not, IfOk, OnOk, filter_map};
ghost use Rattle.text_words.specs.Members.{has};
ghost use Rattle.core_rules.specs.Parts.{last_evaluation, lasts_of, sources_of};
ghost use Rattle.update_plans.specs.Begun.{is_evaluated, AddsUnfinished};

use core_tables::{Execs, Inputs};
use exec_rules::{Input, Key, Last};
use pide_base::{ExecId, PartKind};
use std::alloc::{AllocError, Global};

/// The evaluations that something is taken up from and that are not finished by the table: one that
/// the table has not is not.
pub(crate) fn unfinished<R>(
    alloc: Global,
    execs: &Execs<R>,
    input: &Input,
) -> Result<Inputs, AllocError>
    ensures { IfOk result (λ inputs. (f : ℕ) → has inputs f
        ≡ (has (sources_of input.now) f && not (is_evaluated execs.now.rows f))) }
{
    let mut inputs = Inputs::new(alloc);
    add_sources(&mut inputs, execs, input)?;
    Ok(inputs)
}

fn add_sources<R>(inputs: &mut Inputs, execs: &Execs<R>, input: &Input) -> Result<(), AllocError>
    ensures { OnOk result
        (AddsUnfinished execs.now.rows (sources_of input.now) inputs.old inputs.new) }
{
    match input {
        Input::First(head) => add_lasts(inputs, execs, head.get().key.get()),
        Input::Next(source) | Input::Print(source) => add_source(inputs, execs, *source),
    }
}

fn add_lasts<R>(inputs: &mut Inputs, execs: &Execs<R>, key: &Key) -> Result<(), AllocError>
    ensures { OnOk result
        (AddsUnfinished execs.now.rows (lasts_of key.now) inputs.old inputs.new) }
{
    match key {
        Key::Lasts(lasts) => add_all(inputs, execs, lasts.as_slice()),
        Key::BadImport(_) => Ok(()),
    }
}

fn add_all<R>(inputs: &mut Inputs, execs: &Execs<R>, lasts: &[Last]) -> Result<(), AllocError>
    ensures { OnOk result
        (AddsUnfinished execs.now.rows (filter_map last_evaluation lasts.now) inputs.old
        inputs.new) }
{
    'imports: for last in lasts {
        add_last(inputs, execs, last)?;
    }
    Ok(())
}

fn add_last<R>(inputs: &mut Inputs, execs: &Execs<R>, last: &Last) -> Result<(), AllocError>
    ensures { OnOk result
        (AddsUnfinished execs.now.rows (filter_map last_evaluation (last.now ∷ [])) inputs.old
        inputs.new) }
{
    match last {
        Last::Made(source) => add_source(inputs, execs, *source),
        Last::Empty | Last::Open => Ok(()),
    }
}

fn add_source<R>(inputs: &mut Inputs, execs: &Execs<R>, source: ExecId) -> Result<(), AllocError>
    ensures { OnOk result (AddsUnfinished execs.now.rows (source ∷ []) inputs.old inputs.new) }
{
    if is_evaluated(execs, source) {
        return Ok(());
    }
    inputs.insert(source)?;
    Ok(())
}

/// Whether the evaluation is finished by the table.
fn is_evaluated<R>(execs: &Execs<R>, exec: ExecId) -> bool
    ensures { result ≡ is_evaluated execs.now.rows exec }
{
    match execs.get(exec) {
        Some(one) => one.result_of(PartKind::Eval).is_some(),
        None => false,
    }
}
