ghost use Rattle.std.specs.Prelude.{◌≡◌, IfOk};
ghost use Rattle.proof_state.specs.declared.levels.Levels.TheVariants.{Prove, State};
ghost use Rattle.proof_state.specs.Answers.{is_closed};

use crate::around::Around;
use crate::block::Block;
use joined_results::both;
use nj_formula::{Formula, Shared};
use std::alloc::{AllocError, Global};

/// How far a proof has come. What stands around a level is given from the inside out.
#[derive(Drop)]
pub(crate) enum Levels {
    /// The goal given at the start was closed.
    Closed,
    /// Mode prove: a goal is open.
    Prove {
        goal: Formula,
        around: Around,
    },
    /// Mode state: a block is worked on.
    State {
        block: Shared<Block>,
        around: Around,
    },
}

impl Levels {
    /// The same levels, in constant time.
    pub(crate) fn copy(&self, alloc: Global) -> Result<Levels, AllocError>
        ensures { IfOk result (λ levels. levels ≡ self.now) }
    {
        match self {
            Levels::Closed => Ok(Levels::Closed),
            Levels::Prove { goal, around } => proving(alloc, goal, around),
            Levels::State { block, around } => stating(block, around),
        }
    }

    /// Whether the goal given at the start is closed.
    pub(crate) fn is_closed(&self) -> bool
        ensures { result ≡ is_closed self.now }
    {
        matches!(self, Levels::Closed)
    }
}

fn proving(alloc: Global, goal: &Formula, around: &Around) -> Result<Levels, AllocError>
    ensures { IfOk result (λ levels. levels ≡ Prove goal.now around.now) }
{
    let (goal, around) = both(goal.copy(alloc), around.copy())?;
    Ok(Levels::Prove { goal, around })
}

fn stating(block: &Shared<Block>, around: &Around) -> Result<Levels, AllocError>
    ensures { IfOk result (λ levels. levels ≡ State block.now around.now) }
{
    let (block, around) = both(block.copy(), around.copy())?;
    Ok(Levels::State { block, around })
}
