//! What becomes of the levels when a goal is closed.

ghost use Rattle.std.specs.Prelude.{◌≡◌, IfOk};
ghost use Rattle.proof_state.specs.declared.local_fact.Origin.TheVariants.{Proved};
ghost use Rattle.proof_state.specs.Blocks.{achieved};
ghost use Rattle.proof_state.specs.Steps.{closed_levels};

use crate::around::Around;
use crate::block::Block;
use crate::frame::Purpose;
use crate::levels::Levels;
use crate::local_fact::{LocalFact, Origin};
use joined_results::both;
use nj_formula::{Formula, Name, Shared};
use std::alloc::{AllocError, Global};

pub(crate) fn copy_name(alloc: Global, name: &Option<Name>) -> Result<Option<Name>, AllocError>
    ensures { IfOk result (λ copy. copy ≡ name.now) }
{
    match name {
        Some(name) => Ok(Some(name.copy(alloc)?)),
        None => Ok(None),
    }
}

/// The levels after the goal is closed: all is done, or the block around it has the goal.
pub(crate) fn closed(alloc: Global, goal: &Formula, around: &Around) -> Result<Levels, AllocError>
    ensures { IfOk result (λ levels. levels ≡ closed_levels goal.now around.now) }
{
    match around.first() {
        None => Ok(Levels::Closed),
        Some(frame) => {
            let block = achieved(alloc, &frame.purpose, goal, frame.block.get())?;
            let (block, around) = both(Shared::new(alloc, block), around.rest(alloc))?;
            Ok(Levels::State { block, around })
        }
    }
}

/// The block once the goal inside it is shown.
fn achieved(
    alloc: Global,
    purpose: &Purpose,
    goal: &Formula,
    block: &Block,
) -> Result<Block, AllocError>
    ensures { IfOk result (λ block'. block' ≡ achieved purpose.now goal.now block.now) }
{
    match purpose {
        Purpose::Have(name) => block.with_fact(alloc, proved(alloc, name, goal)?),
        Purpose::Show(place) => block.without_subgoal(alloc, *place),
    }
}

/// The fact that a goal becomes.
fn proved(alloc: Global, name: &Option<Name>, goal: &Formula) -> Result<LocalFact, AllocError>
    ensures { IfOk result (λ fact. fact
        ≡ record { origin = Proved; name = name.now; formula = goal.now }) }
{
    let (name, goal) = both(copy_name(alloc, name), goal.copy(alloc))?;
    LocalFact::new(alloc, Origin::Proved, name, goal)
}
