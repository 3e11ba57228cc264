//! The print of a proof state.

ghost use Rattle.std.specs.Prelude.{OnOk, IfOk, string_bytes};
ghost use Rattle.proof_state.specs.Describes.{Adds, SaysFormula, SaysAssumed, SaysFixed, SaysGoal, SaysBlock};
ghost use Rattle.proof_state.specs.Describes.{SaysSubgoal, SaysSubgoals, Describes};

use crate::block::Block;
use crate::levels::Levels;
use crate::subgoal::Subgoal;
use nj_formula::{Formula, Name};
use nj_syntax::{print, print_body};
use std::alloc::{AllocError, Global};

impl Levels {
    pub(crate) fn describe(&self, alloc: Global) -> Result<String, AllocError>
        ensures { IfOk result (λ text. Describes self.now (string_bytes text)) }
    {
        let mut text = String::new(alloc);
        match self {
            Levels::Closed => {}
            Levels::Prove { goal, around: _ } => write_goal(alloc, &mut text, goal)?,
            Levels::State { block, around: _ } => write_block(alloc, &mut text, block.get())?,
        }
        Ok(text)
    }
}

fn write_goal(alloc: Global, text: &mut String, goal: &Formula) -> Result<(), AllocError>
    ensures { OnOk result (Adds (string_bytes text.old) (string_bytes text.new)
        (SaysGoal goal.now)) }
{
    text.push_str("prove: ")?;
    write_formula(alloc, text, goal)
}

fn write_block(alloc: Global, text: &mut String, block: &Block) -> Result<(), AllocError>
    ensures { OnOk result (Adds (string_bytes text.old) (string_bytes text.new)
        (SaysBlock block.now)) }
{
    text.push_str("state: ")?;
    write_formula(alloc, text, block.goal.get())?;
    write_subgoals(alloc, text, block.pending.as_slice())
}

fn write_formula(alloc: Global, text: &mut String, formula: &Formula) -> Result<(), AllocError>
    ensures { OnOk result (Adds (string_bytes text.old) (string_bytes text.new)
        (SaysFormula formula.now)) }
{
    let printed = print(alloc, formula)?;
    text.push_str(printed.as_str())
}

/// Adds a line for each subgoal.
fn write_subgoals(alloc: Global, text: &mut String, subgoals: &[Subgoal]) -> Result<(), AllocError>
    ensures { OnOk result (Adds (string_bytes text.old) (string_bytes text.new)
        (SaysSubgoals subgoals.now)) }
{
    for subgoal in subgoals {
        text.push_str("\nsubgoal: ")?;
        write_subgoal(alloc, text, subgoal)?;
    }
    Ok(())
}

fn write_subgoal(alloc: Global, text: &mut String, subgoal: &Subgoal) -> Result<(), AllocError>
    ensures { OnOk result (Adds (string_bytes text.old) (string_bytes text.new)
        (SaysSubgoal subgoal.now)) }
{
    match subgoal {
        Subgoal::Show(conclusion) => write_formula(alloc, text, conclusion.get()),
        Subgoal::AssumeShow(assumption, conclusion) => {
            write_assumed(alloc, text, assumption.get(), conclusion.get())
        }
        Subgoal::FixShow(name, body) => write_fixed(alloc, text, name, body.get()),
    }
}

fn write_assumed(
    alloc: Global,
    text: &mut String,
    assumption: &Formula,
    conclusion: &Formula,
) -> Result<(), AllocError>
    ensures { OnOk result (Adds (string_bytes text.old) (string_bytes text.new)
        (SaysAssumed assumption.now conclusion.now)) }
{
    text.push_str("assume ")?;
    write_formula(alloc, text, assumption)?;
    text.push_str(" show ")?;
    write_formula(alloc, text, conclusion)
}

fn write_fixed(
    alloc: Global,
    text: &mut String,
    name: &Name,
    body: &Formula,
) -> Result<(), AllocError>
    ensures { OnOk result (Adds (string_bytes text.old) (string_bytes text.new)
        (SaysFixed name.now body.now)) }
{
    let printed = print_body(alloc, name, body)?;
    text.push_str("fix ")?;
    text.push_str(printed.name.as_str())?;
    text.push_str(" show ")?;
    text.push_str(printed.body.as_str())
}
