//! The local facts that can be cited.

ghost use Rattle.std.specs.Prelude.{◌≡◌, IfOk};
ghost use Rattle.theory_ctx.specs.Locals.{joined};
ghost use Rattle.proof_state.specs.declared.levels.Levels.TheVariants.{State};
ghost use Rattle.proof_state.specs.Locals.{locals_of};

use crate::around::Around;
use crate::block::Block;
use crate::levels::Levels;
use joined_results::both;
use shared_map::SharedList;
use std::alloc::{AllocError, Global};
use theory_ctx::Locals;

impl Levels {
    /// The named facts of each block, the innermost first. Those of the blocks around are shared as
    /// they stand.
    pub(crate) fn sights(&self, alloc: Global) -> Result<SharedList<Locals>, AllocError>
        ensures { IfOk result (λ sights. joined sights ≡ locals_of self.now) }
    {
        match self {
            Levels::Closed => Ok(SharedList::new()),
            Levels::Prove { goal: _, around } => around.sights(),
            Levels::State { block, around } => sights_from(alloc, block.get(), around),
        }
    }
}

/// The named facts of the block, then those of each of these blocks around it.
fn sights_from(
    alloc: Global,
    block: &Block,
    around: &Around,
) -> Result<SharedList<Locals>, AllocError>
    ensures { IfOk result (λ sights. joined sights ≡ locals_of (State block.now around.now)) }
{
    let named = block.facts.named().copy();
    let (sights, named) = both(around.sights(), named)?;
    sights.with_first(alloc, named)
}
