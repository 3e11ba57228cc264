//! Names that can't be fixed.

ghost use Rattle.std.specs.Prelude.{◌≡◌};
ghost use Rattle.std.specs.List.{list_any};
ghost use Rattle.proof_state.specs.Fresh.{is_used, is_taken};

use crate::around::Around;
use crate::block::Block;
use theory_ctx::Ctx;

/// Whether the name is free in a fact of the context or used in the block or one around it.
pub(crate) fn is_taken(ctx: &Ctx, name: &str, block: &Block, around: &Around) -> bool
    ensures { result ≡ is_taken ctx.now name.now block.now around.now }
{
    is_used(name, block) || is_used_around(name, around) || ctx.has_free(name)
}

fn is_used(name: &str, block: &Block) -> bool
    ensures { result ≡ is_used name.now block.now }
{
    block.variables.has(name) || block.goal.get().has_free(name) || block.facts.has_free(name)
}

fn is_used_around(name: &str, around: &Around) -> bool
    ensures { result ≡ list_any (λ frame. is_used name.now frame.block) around.now }
{
    for frame in around.iter() {
        if is_used(name, frame.block.get()) {
            return true;
        }
    }
    false
}
