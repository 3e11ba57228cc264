ghost use Rattle.std.specs.Prelude.{◌≡◌, [], IfOk, OnErr, string_bytes};
ghost use Rattle.std.specs.Option.{option_copied};
ghost use Rattle.proof_state.specs.declared.levels.Levels.TheVariants.{Prove};
ghost use Rattle.proof_state.specs.Steps.{step, proof, fix, assume, have, show, next, qed, by};
ghost use Rattle.proof_state.specs.Answers.{Gives, left, is_closed, is_stated, open_goal};
ghost use Rattle.proof_state.specs.Locals.{locals_of};
ghost use Rattle.proof_state.specs.Describes.{Describes};

use crate::around::Around;
use crate::fault::ProofFault;
use crate::levels::Levels;
use joined_results::both;
use nj_formula::{Formula, Name};
use std::alloc::{AllocError, Global};
use std::marker::Model;
use std::mem::replace;
use theory_ctx::{Ctx, Scope};

/// A proof of a goal, as far as its commands have come. Contracts see it as its levels: in mode
/// prove an open goal, in mode state a block, each with the blocks around it from the inside out,
/// or that the goal given at the start is closed. At each error it is as before.
#[derive(Drop)]
pub struct Proof {
    levels: Levels,
}

impl Model for Proof {
    ghost use Rattle.proof_state.specs.declared.levels.Levels.{Levels as Held};
    ghost use Rattle.nj_formula.specs.contracts.formula.Formula as formula;
    ghost use Rattle.std.specs.Coded.{codes};

    ghost Value = { Held };

    ghost coded = { Prim.hlevel (codes, formula.the_row.coded) };

    ghost view = { λ p. p.levels };
}

impl Proof {
    /// The proof of a goal, in mode prove. It takes no memory.
    pub fn start(goal: Formula) -> Proof
        ensures { result ≡ Prove goal [] }
    {
        Proof {
            levels: Levels::Prove {
                goal,
                around: Around::new(),
            },
        }
    }

    /// The same proof, in constant time.
    pub fn copy(&self, alloc: Global) -> Result<Proof, AllocError>
        ensures { IfOk result (λ copy. copy ≡ self.now) }
    {
        Ok(Proof {
            levels: self.levels.copy(alloc)?,
        })
    }

    /// `proof`, or `proof -` with a dash: the open goal becomes a block with its subgoals.
    /// `NotAllowed` in mode state and after the end.
    pub fn proof(&mut self, alloc: Global, dash: bool) -> Result<(), ProofFault>
        ensures step { Gives (step (proof dash) self.old) (left result self.new) }
        ensures err { OnErr result (self.new ≡ self.old) }
    {
        let made = self.levels.after_proof(alloc, dash);
        self.take(made)
    }

    /// `fix`: the name joins the block's variables. `NotAllowed` in mode prove and after the end;
    /// `NotFresh` where the name is free in a fact of the context, or in a goal, an assumption or a
    /// fact of any level, or is fixed at any level.
    pub fn fix(&mut self, alloc: Global, name: &str, ctx: &Ctx) -> Result<(), ProofFault>
        ensures step { Gives (step (fix ctx.now name.now) self.old) (left result self.new) }
        ensures err { OnErr result (self.new ≡ self.old) }
    {
        let made = self.levels.after_fix(alloc, name, ctx);
        self.take(made)
    }

    /// `assume`: the formula joins the block's assumptions. `NotAllowed` in mode prove and after
    /// the end.
    pub fn assume(
        &mut self,
        alloc: Global,
        name: Option<&str>,
        formula: Formula,
    ) -> Result<(), ProofFault>
        ensures step { Gives (step (assume (option_copied name.entry) formula) self.old)
            (left result self.new) }
        ensures err { OnErr result (self.new ≡ self.old) }
    {
        let (name, formula) = both(held(alloc, name), Ok(formula))?;
        let made = self.levels.after_assume(alloc, name, formula);
        self.take(made)
    }

    /// `have`: opens a goal, which joins the block's facts when it is closed. `NotAllowed` in mode
    /// prove and after the end.
    pub fn have(
        &mut self,
        alloc: Global,
        name: Option<&str>,
        formula: Formula,
    ) -> Result<(), ProofFault>
        ensures step { Gives (step (have (option_copied name.entry) formula) self.old)
            (left result self.new) }
        ensures err { OnErr result (self.new ≡ self.old) }
    {
        let (name, formula) = both(held(alloc, name), Ok(formula))?;
        let made = self.levels.after_have(alloc, name, formula);
        self.take(made)
    }

    /// `show`: opens a goal for the first pending subgoal of the block that fits, which is no
    /// longer pending when the goal is closed. `NotAllowed` in mode prove and after the end;
    /// `NoSuchSubgoal` where none fits.
    pub fn show(&mut self, alloc: Global, formula: Formula) -> Result<(), ProofFault>
        ensures step { Gives (step (show formula) self.old) (left result self.new) }
        ensures err { OnErr result (self.new ≡ self.old) }
    {
        let made = self.levels.after_show(alloc, formula);
        self.take(made)
    }

    /// `next`: the block has no variables, assumptions and facts any more. `NotAllowed` in mode
    /// prove and after the end.
    pub fn next(&mut self, alloc: Global) -> Result<(), ProofFault>
        ensures step { Gives (step next self.old) (left result self.new) }
        ensures err { OnErr result (self.new ≡ self.old) }
    {
        let made = self.levels.after_next(alloc);
        self.take(made)
    }

    /// `qed`: closes the block's goal, and tells whether it is the goal given at the start.
    /// `NotAllowed` in mode prove and after the end; `SubgoalsRemain` where a subgoal of the block
    /// is pending.
    pub fn qed(&mut self, alloc: Global) -> Result<bool, ProofFault>
        ensures step { Gives (step qed self.old) (left result self.new) }
        ensures whole { IfOk result (λ whole. whole ≡ is_closed self.new) }
        ensures err { OnErr result (self.new ≡ self.old) }
    {
        let made = self.levels.after_qed(alloc);
        self.take(made)?;
        Ok(self.levels.is_closed())
    }

    /// `by`: closes the open goal, and tells whether it is the goal given at the start. Whether it
    /// is derivable is asked elsewhere. `NotAllowed` in mode state and after the end.
    pub fn by(&mut self, alloc: Global) -> Result<bool, ProofFault>
        ensures step { Gives (step by self.old) (left result self.new) }
        ensures whole { IfOk result (λ whole. whole ≡ is_closed self.new) }
        ensures err { OnErr result (self.new ≡ self.old) }
    {
        let made = self.levels.after_by(alloc);
        self.take(made)?;
        Ok(self.levels.is_closed())
    }

    /// Takes these levels for its own, unless a command was refused.
    fn take(&mut self, made: Result<Levels, ProofFault>) -> Result<(), ProofFault>
        ensures taken { left result self.new ≡ made }
        ensures err { OnErr result (self.new ≡ self.old) }
    {
        let levels = made?;
        drop(replace(&mut self.levels, levels));
        Ok(())
    }

    /// The proof as `by` leaves it, beside this one.
    pub fn closed(&self, alloc: Global) -> Result<Proof, ProofFault>
        ensures { Gives (step by self.now) result }
    {
        Ok(Proof {
            levels: self.levels.after_by(alloc)?,
        })
    }

    /// The open goal in mode prove, else None.
    pub fn goal(&self) -> Option<&Formula>
        ensures { option_copied result ≡ open_goal self.now }
    {
        match &self.levels {
            Levels::Prove { goal, around: _ } => Some(goal),
            Levels::Closed | Levels::State { .. } => None,
        }
    }

    /// Whether it is in mode state.
    pub fn is_state(&self) -> bool
        ensures { result ≡ is_stated self.now }
    {
        matches!(&self.levels, Levels::State { .. })
    }

    /// What a name means here: the named assumptions and facts of the blocks from the innermost, in
    /// each block the newest first, then what the theory sees.
    pub fn scope<'a>(
        &self,
        alloc: Global,
        theory: &'a str,
        ctx: &'a Ctx,
    ) -> Result<Scope<'a>, AllocError>
        ensures { IfOk result (λ scope. scope
            ≡ record { locals = locals_of self.now; theory = theory.now; facts = ctx.now }) }
    {
        let blocks = self.levels.sights(alloc)?;
        Ok(Scope::in_blocks(theory, ctx, blocks))
    }

    /// The print: the open goal, or the block's goal and a line for each pending subgoal. Empty
    /// after the end.
    pub fn describe(&self, alloc: Global) -> Result<String, AllocError>
        ensures { IfOk result (λ text. Describes self.now (string_bytes text)) }
    {
        self.levels.describe(alloc)
    }
}

fn held(alloc: Global, name: Option<&str>) -> Result<Option<Name>, AllocError>
    ensures { IfOk result (λ copy. copy ≡ option_copied name.entry) }
{
    match name {
        Some(name) => Ok(Some(Name::new(alloc, name)?)),
        None => Ok(None),
    }
}
