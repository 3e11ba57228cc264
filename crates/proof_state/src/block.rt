ghost use Rattle.std.specs.Prelude.{◌≡◌, [], ◌∷◌, Ok, IfOk, remove};
ghost use Rattle.proof_state.specs.Blocks.{opened};

use crate::facts::Facts;
use crate::local_fact::LocalFact;
use crate::subgoal::{Subgoal, copies, subgoals_of, without};
use crate::variables::Variables;
use joined_results::both;
use nj_formula::{Formula, Name, Shared};
use sqlite_items::Items;
use std::alloc::{AllocError, Global};

/// A goal that is being shown in steps.
#[derive(Drop)]
pub(crate) struct Block {
    pub(crate) goal: Shared<Formula>,
    /// The subgoals that are still to be shown.
    pub(crate) pending: Items<Subgoal>,
    /// The fixed names, the newest first.
    pub(crate) variables: Variables,
    /// The assumptions and facts, the newest first.
    pub(crate) facts: Facts,
}

impl Block {
    /// The block that a goal becomes, with its subgoals.
    pub(crate) fn opened(alloc: Global, goal: &Formula, dash: bool) -> Result<Block, AllocError>
        ensures { IfOk result (λ block. block ≡ opened dash goal.now) }
    {
        let goal = Shared::new(alloc, goal.copy(alloc)?)?;
        let pending = subgoals_of(alloc, &goal, dash);
        let block = Block::of(Ok(goal), pending, Ok(Variables::new()), Ok(Facts::new()))?;
        Ok(block)
    }

    /// The block of these parts, where all of them could be made.
    fn of(
        goal: Result<Shared<Formula>, AllocError>,
        pending: Result<Items<Subgoal>, AllocError>,
        variables: Result<Variables, AllocError>,
        facts: Result<Facts, AllocError>,
    ) -> Result<Block, AllocError>
        ensures goal { IfOk result (λ block. goal ≡ Ok block.goal) }
        ensures pending { IfOk result (λ block. pending ≡ Ok block.pending) }
        ensures variables { IfOk result (λ block. variables ≡ Ok block.variables) }
        ensures facts { IfOk result (λ block. facts ≡ Ok block.facts) }
    {
        let ((goal, pending), (variables, facts)) = both(
            both(goal, pending),
            both(variables, facts),
        )?;
        Ok(Block {
            goal,
            pending,
            variables,
            facts,
        })
    }

    /// The block with its goal and subgoals alone.
    pub(crate) fn cleared(&self, alloc: Global) -> Result<Block, AllocError>
        ensures { IfOk result (λ block. block
            ≡ record self.now { variables = []; facts = [] }) }
    {
        let block = Block::of(
            self.goal.copy(),
            copies(alloc, self.pending.as_slice()),
            Ok(Variables::new()),
            Ok(Facts::new()),
        )?;
        Ok(block)
    }

    /// The block with one more fixed name.
    pub(crate) fn with_variable(&self, alloc: Global, name: Name) -> Result<Block, AllocError>
        ensures { IfOk result (λ block. block
            ≡ record self.now { variables = name ∷ self.now.variables }) }
    {
        let block = Block::of(
            self.goal.copy(),
            copies(alloc, self.pending.as_slice()),
            self.variables.with_first(alloc, name),
            self.facts.copy(),
        )?;
        Ok(block)
    }

    /// The block with one more assumption or fact.
    pub(crate) fn with_fact(&self, alloc: Global, fact: LocalFact) -> Result<Block, AllocError>
        ensures { IfOk result (λ block. block
            ≡ record self.now { facts = fact ∷ self.now.facts }) }
    {
        let block = Block::of(
            self.goal.copy(),
            copies(alloc, self.pending.as_slice()),
            self.variables.copy(),
            self.facts.with_first(alloc, fact),
        )?;
        Ok(block)
    }

    /// The block without the subgoal at this place, if there is one.
    pub(crate) fn without_subgoal(&self, alloc: Global, place: usize) -> Result<Block, AllocError>
        ensures { IfOk result (λ block. block
            ≡ record self.now { pending = remove self.now.pending place }) }
    {
        let block = Block::of(
            self.goal.copy(),
            without(alloc, self.pending.as_slice(), place),
            self.variables.copy(),
            self.facts.copy(),
        )?;
        Ok(block)
    }
}
