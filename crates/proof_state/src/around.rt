ghost use Rattle.std.specs.Prelude.{◌≡◌, [], ◌∷◌, IfOk, drop, slice_get};
ghost use Rattle.std.specs.Option.{option_copied};
ghost use Rattle.proof_state.specs.Sights.{AreSights};

use crate::frame::Frame;
use joined_results::both;
use shared_map::{ListItems, SharedList};
use std::alloc::{AllocError, Global};
use std::marker::Model;
use theory_ctx::Locals;

/// The blocks around a goal or a block, and what the goals inside them are shown for, the innermost
/// first. Contracts see them as the list of these frames. A copy shares all with its source.
#[derive(Drop)]
pub(crate) struct Around {
    frames: SharedList<Frame>,
    /// The named facts of each of these blocks, in the same order.
    sights: SharedList<Locals>,
}

impl Model for Around {
    ghost use Rattle.std.specs.Prelude.{List};
    ghost use Rattle.std.specs.Coded.{codes};
    ghost use Rattle.nj_formula.specs.contracts.formula.Formula as formula;
    ghost use Rattle.proof_state.specs.declared.frame.Frame.{Frame as Held};
    ghost use Rattle.proof_state.specs.Sights.{AreSights};

    ghost Value = { List Held };

    ghost coded = { Prim.hlevel (codes, formula.the_row.coded) };

    ghost view = { λ around. around.frames };

    ghost invariant = { λ around. AreSights around.sights around.frames };
}

impl Around {
    /// No blocks, which take no memory.
    pub(crate) fn new() -> Around
        ensures { result ≡ [] }
    {
        Around {
            frames: SharedList::new(),
            sights: SharedList::new(),
        }
    }

    /// The same blocks, in the same memory.
    pub(crate) fn copy(&self) -> Result<Around, AllocError>
        ensures { IfOk result (λ around. around ≡ self.now) }
    {
        let (frames, sights) = both(self.frames.copy(), self.sights.copy())?;
        Ok(Around { frames, sights })
    }

    /// These and one more inside them.
    pub(crate) fn with_first(&self, alloc: Global, frame: Frame) -> Result<Around, AllocError>
        ensures { IfOk result (λ around. around ≡ frame ∷ self.now) }
    {
        let sights = self.sights_from(alloc, &frame);
        let (frames, sights) = both(self.frames.with_first(alloc, frame), sights)?;
        Ok(Around { frames, sights })
    }

    /// The named facts of the block of this frame, then those of each of these blocks.
    fn sights_from(&self, alloc: Global, frame: &Frame) -> Result<SharedList<Locals>, AllocError>
        ensures { IfOk result (λ sights. AreSights sights (frame.now ∷ self.now)) }
    {
        let named = frame.block.get().facts.named().copy()?;
        self.sights.with_first(alloc, named)
    }

    /// Those around the innermost one.
    pub(crate) fn rest(&self, alloc: Global) -> Result<Around, AllocError>
        ensures { IfOk result (λ around. around ≡ drop 1 self.now) }
    {
        let (frames, sights) = both(self.frames.rest(alloc), self.sights.rest(alloc))?;
        Ok(Around { frames, sights })
    }

    /// The innermost one.
    pub(crate) fn first(&self) -> Option<&Frame>
        ensures { option_copied result ≡ slice_get self.now 0 }
    {
        self.frames.get(0)
    }

    /// They themselves, lent.
    pub(crate) fn iter(&self) -> ListItems<'_, Frame>
        ensures { result ≡ self.now }
    {
        self.frames.iter()
    }

    /// The named facts of each of these blocks, in the same memory.
    pub(crate) fn sights(&self) -> Result<SharedList<Locals>, AllocError>
        ensures { IfOk result (λ sights. AreSights sights self.now) }
    {
        self.sights.copy()
    }
}
