//! Tasks that are done, in their order.
ghost use Rattle.std.specs.Prelude.{◌≡◌, map, IfOk, IsPermutation};
ghost use Rattle.std.specs.List.Sorted.{IsNonDecreasingBy};
ghost use Rattle.task_round.specs.Workers.{numbers};
ghost use Rattle.task_round.specs.Results.{ComesOf};

use crate::tasks::Done;
use std::alloc::{AllocError, Global};

/// What came of a round.
#[derive(Drop)]
pub struct Round<M> {
    /// What each task made, task by task from 0 on.
    pub made: Vec<M>,
    /// The tasks, in the order in which what they made was gathered.
    pub taken: Vec<usize>,
}

/// The numbers of the tasks.
fn numbers_of<M: Drop>(alloc: Global, done: &[Done<M>]) -> Result<Vec<usize>, AllocError>
    ensures { IfOk result (λ all. all.items ≡ numbers done.now) }
{
    let mut all = Vec::with_capacity(alloc, done.len())?;
    'tasks: for one in done {
        all.push(one.task)?;
    }
    Ok(all)
}

/// What each task made.
fn made_by<M: Drop>(alloc: Global, done: Vec<Done<M>>) -> Result<Vec<M>, AllocError>
    ensures { IfOk result (λ all. all.items ≡ map (λ d. d.made) done.items) }
{
    let mut all = Vec::with_capacity(alloc, done.len())?;
    'tasks: for one in done {
        all.push(one.made)?;
    }
    Ok(all)
}

/// The tasks from the first number on.
fn in_order<M: Drop>(done: Vec<Done<M>>) -> Vec<Done<M>>
    ensures same { IsPermutation done.items result.items }
    ensures rises { IsNonDecreasingBy (λ d. d.task) result.items }
{
    let mut done = done;
    done.sort_unstable_by_key(|one| one.task);
    done
}

/// What came of a round, these being the tasks that were done in it.
pub(crate) fn round_of<M: Drop>(alloc: Global, done: Vec<Done<M>>) -> Result<Round<M>, AllocError>
    ensures { IfOk result (λ round. ComesOf done.items round) }
{
    let taken = numbers_of(alloc, &done)?;
    let made = made_by(alloc, in_order(done))?;
    Ok(Round { made, taken })
}
