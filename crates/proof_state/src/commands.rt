//! The levels after each command.

ghost use Rattle.std.specs.Prelude.{◌≡◌, ◌∷◌, IfOk};
ghost use Rattle.proof_state.specs.declared.levels.Levels.TheVariants.{State};
ghost use Rattle.proof_state.specs.Steps.{step, proof, fix, assume, have, show, next, qed, by};
ghost use Rattle.proof_state.specs.Answers.{Gives};

use crate::around::Around;
use crate::block::Block;
use crate::closing::closed;
use crate::fault::ProofFault;
use crate::fits::fitting;
use crate::frame::{Frame, Purpose};
use crate::fresh::is_taken;
use crate::levels::Levels;
use crate::local_fact::{LocalFact, Origin};
use joined_results::both;
use nj_formula::{Formula, Name, Shared};
use std::alloc::{AllocError, Global};
use theory_ctx::Ctx;

impl Levels {
    pub(crate) fn after_proof(&self, alloc: Global, dash: bool) -> Result<Levels, ProofFault>
        ensures { Gives (step (proof dash) self.now) result }
    {
        let Levels::Prove { goal, around } = self else {
            return Err(ProofFault::NotAllowed);
        };
        let block = Block::opened(alloc, goal, dash)?;
        Ok(stated(alloc, block, around)?)
    }

    pub(crate) fn after_fix(
        &self,
        alloc: Global,
        name: &str,
        ctx: &Ctx,
    ) -> Result<Levels, ProofFault>
        ensures { Gives (step (fix ctx.now name.now) self.now) result }
    {
        let Levels::State { block, around } = self else {
            return Err(ProofFault::NotAllowed);
        };
        let taken = is_taken(ctx, name, block.get(), around);
        let name = Name::new(alloc, name)?;
        if taken {
            return Err(ProofFault::NotFresh { name });
        }
        let block = block.get().with_variable(alloc, name)?;
        Ok(stated(alloc, block, around)?)
    }

    pub(crate) fn after_assume(
        &self,
        alloc: Global,
        name: Option<Name>,
        formula: Formula,
    ) -> Result<Levels, ProofFault>
        ensures { Gives (step (assume name formula) self.now) result }
    {
        let Levels::State { block, around } = self else {
            drop((name, formula));
            return Err(ProofFault::NotAllowed);
        };
        let fact = LocalFact::new(alloc, Origin::Assumed, name, formula)?;
        let block = block.get().with_fact(alloc, fact)?;
        Ok(stated(alloc, block, around)?)
    }

    pub(crate) fn after_have(
        &self,
        alloc: Global,
        name: Option<Name>,
        formula: Formula,
    ) -> Result<Levels, ProofFault>
        ensures { Gives (step (have name formula) self.now) result }
    {
        let Levels::State { block, around } = self else {
            drop((name, formula));
            return Err(ProofFault::NotAllowed);
        };
        let around = inside(alloc, block, Purpose::Have(name), around);
        let (goal, around) = both(Ok(formula), around)?;
        Ok(Levels::Prove { goal, around })
    }

    pub(crate) fn after_show(&self, alloc: Global, formula: Formula) -> Result<Levels, ProofFault>
        ensures { Gives (step (show formula) self.now) result }
    {
        let Levels::State { block, around } = self else {
            drop(formula);
            return Err(ProofFault::NotAllowed);
        };
        let Ok(fitted) = fitting(alloc, block.get(), &formula) else {
            drop(formula);
            return Err(ProofFault::NoMemory);
        };
        let Some(place) = fitted else {
            drop(formula);
            return Err(ProofFault::NoSuchSubgoal);
        };
        let around = inside(alloc, block, Purpose::Show(place), around);
        let (goal, around) = both(Ok(formula), around)?;
        Ok(Levels::Prove { goal, around })
    }

    pub(crate) fn after_next(&self, alloc: Global) -> Result<Levels, ProofFault>
        ensures { Gives (step next self.now) result }
    {
        let Levels::State { block, around } = self else {
            return Err(ProofFault::NotAllowed);
        };
        let cleared = block.get().cleared(alloc)?;
        Ok(stated(alloc, cleared, around)?)
    }

    pub(crate) fn after_qed(&self, alloc: Global) -> Result<Levels, ProofFault>
        ensures { Gives (step qed self.now) result }
    {
        let Levels::State { block, around } = self else {
            return Err(ProofFault::NotAllowed);
        };
        if block.get().pending.len() != 0 {
            return Err(ProofFault::SubgoalsRemain);
        }
        let levels = closed(alloc, block.get().goal.get(), around)?;
        Ok(levels)
    }

    pub(crate) fn after_by(&self, alloc: Global) -> Result<Levels, ProofFault>
        ensures { Gives (step by self.now) result }
    {
        let Levels::Prove { goal, around } = self else {
            return Err(ProofFault::NotAllowed);
        };
        let levels = closed(alloc, goal, around)?;
        Ok(levels)
    }
}

/// Mode state, at this block.
fn stated(alloc: Global, block: Block, around: &Around) -> Result<Levels, AllocError>
    ensures { IfOk result (λ levels. levels ≡ State block around.now) }
{
    let (block, around) = both(Shared::new(alloc, block), around.copy())?;
    Ok(Levels::State { block, around })
}

/// What stands around a goal that is opened in the block.
fn inside(
    alloc: Global,
    block: &Shared<Block>,
    purpose: Purpose,
    around: &Around,
) -> Result<Around, AllocError>
    ensures { IfOk result (λ frames. frames
        ≡ record { block = block.now; purpose = purpose } ∷ around.now) }
{
    let frame = Frame {
        block: block.copy()?,
        purpose,
    };
    around.with_first(alloc, frame)
}
