//! Which subgoal a `show` is for.

ghost use Rattle.std.specs.Prelude.{◌≡◌, IfOk, map, filter};
ghost use Rattle.std.specs.List.{list_any, list_all};
ghost use Rattle.nj_formula.specs.declared.argument.Argument.TheVariants.{Free};
ghost use Rattle.nj_formula.specs.FormulaInstance.{formula_instance};
ghost use Rattle.proof_state.specs.Blocks.{assumptions, is_assumption};
ghost use Rattle.proof_state.specs.Fits.{concludes, assumed, fits, fitting};
ghost use Rattle.proof_state.specs.Same.{says_same};

use crate::block::Block;
use crate::facts::Facts;
use crate::same::says_same;
use crate::subgoal::Subgoal;
use crate::variables::Variables;
use nj_formula::{Formula, Name, ObjTerm};
use std::alloc::{AllocError, Global};

/// The place of the first pending subgoal of the block that `shown` fits.
pub(crate) fn fitting(
    alloc: Global,
    block: &Block,
    shown: &Formula,
) -> Result<Option<usize>, AllocError>
    ensures { IfOk result (λ place. place ≡ fitting block.now shown.now) }
{
    for (place, subgoal) in block.pending.as_slice().iter().enumerate() {
        if fits(alloc, block, shown, subgoal)? {
            return Ok(Some(place));
        }
    }
    Ok(None)
}

fn fits(
    alloc: Global,
    block: &Block,
    shown: &Formula,
    subgoal: &Subgoal,
) -> Result<bool, AllocError>
    ensures { IfOk result (λ does. does ≡ fits block.now shown.now subgoal.now) }
{
    if !concludes(alloc, &block.variables, shown, subgoal)? {
        return Ok(false);
    }
    Ok(are_assumed(&block.facts, subgoal))
}

/// Whether the subgoal's conclusion is `shown`, for one of the fixed names where it asks for one.
fn concludes(
    alloc: Global,
    fixed: &Variables,
    shown: &Formula,
    subgoal: &Subgoal,
) -> Result<bool, AllocError>
    ensures { IfOk result (λ does. does ≡ concludes fixed.now shown.now subgoal.now) }
{
    match subgoal {
        Subgoal::Show(conclusion) | Subgoal::AssumeShow(_, conclusion) => {
            Ok(says_same(shown, conclusion.get()))
        }
        Subgoal::FixShow(_, body) => is_instance(alloc, fixed, shown, body.get()),
    }
}

/// Whether `shown` is the body at one of the fixed names.
fn is_instance(
    alloc: Global,
    fixed: &Variables,
    shown: &Formula,
    body: &Formula,
) -> Result<bool, AllocError>
    ensures { IfOk result (λ is. is
        ≡ list_any (λ y. says_same shown.now (formula_instance (Free y) body.now)) fixed.now) }
{
    for name in fixed.iter() {
        if is_at(alloc, name, shown, body)? {
            return Ok(true);
        }
    }
    Ok(false)
}

fn is_at(alloc: Global, name: &Name, shown: &Formula, body: &Formula) -> Result<bool, AllocError>
    ensures { IfOk result (λ is. is
        ≡ says_same shown.now (formula_instance (Free name.now) body.now)) }
{
    let at_name = instance_at(alloc, name, body)?;
    let is = says_same(shown, &at_name);
    drop(at_name);
    Ok(is)
}

fn instance_at(alloc: Global, name: &Name, body: &Formula) -> Result<Formula, AllocError>
    ensures { IfOk result (λ at. at ≡ formula_instance (Free name.now) body.now) }
{
    let term = ObjTerm::name(alloc, name.as_str())?;
    body.instance(alloc, &term)
}

/// Whether each assumption among these facts is one of the subgoal.
fn are_assumed(facts: &Facts, subgoal: &Subgoal) -> bool
    ensures { result ≡ list_all (λ a. list_any (says_same a) (assumed subgoal.now))
        (map (λ fact. fact.formula) (filter is_assumption facts.now)) }
{
    for fact in facts.iter() {
        if fact.is_assumption() && !is_assumed(fact.formula.get(), subgoal) {
            return false;
        }
    }
    true
}

fn is_assumed(assumption: &Formula, subgoal: &Subgoal) -> bool
    ensures { result ≡ list_any (says_same assumption.now) (assumed subgoal.now) }
{
    match subgoal {
        Subgoal::AssumeShow(other, _) => says_same(assumption, other.get()),
        Subgoal::Show(_) | Subgoal::FixShow(_, _) => false,
    }
}
