//! A round, from its beginning to its end.
ghost use Rattle.std.specs.Prelude.{◌≡◌, ◌+◌, ◌<◌, ◌≤◌, [], length, vec_len, IfOk, IsPermutation};
ghost use Rattle.std.specs.List.{All, range_with_len};
ghost use Rattle.crossbeam_deque.specs.Handles.{stealer_deque, worker_deque, worker_flavor, worker_view};
ghost use Rattle.task_round.specs.Sharing.{all_parts, hand};
ghost use Rattle.task_round.specs.Rounds.{AreAll, AreMade};
ghost use Rattle.task_round.specs.Workers.{AreDone, HasDone, IsHaul, IsThief, numbers};

use crate::gathering::gather;
use crate::hand::Owner;
use crate::ordering::{Round, round_of};
use crate::owner::{Popped, filled, pop_all, pop_first};
use crate::tasks::{Done, Tasks};
use crate::thieves::{Haul, Hauls, Thief, steal_in_threads, thieves_of};
use joined_results::both;
use std::alloc::{AllocError, Global};
use std::sync::Wait;
use std::thread::{Threads, join};

/// What the owner and the thieves bring back.
#[derive(Drop)]
pub(crate) struct Back<M> {
    pub popped: Popped<M>,
    pub hauls: Vec<Result<Haul<M>, AllocError>>,
}

/// The owner does tasks in this thread, and each thief in one of its own, until there are none.
fn side_by_side<T: Tasks + Sync, R: Threads + Wait + Sync>(
    rt: &R,
    alloc: Global,
    tasks: &T,
    owner: Owner,
    thieves: Vec<Thief>,
) -> Result<Back<T::Made>, AllocError>
    requires ready { T.ready tasks.now }
    requires fifo { worker_flavor owner ≡ 0 }
    requires part { 0 < (worker_view owner).parts }
    requires knows { (worker_view owner).count ≡ T.count tasks.now }
    requires none { (worker_view owner).taken ≡ [] }
    requires thieves { All (IsThief (worker_deque owner) (T.count tasks.now)) thieves.items }
    ensures fifo { IfOk result (λ back. worker_flavor back.popped.owner ≡ 0) }
    ensures deque { IfOk result (λ back. worker_deque back.popped.owner ≡ worker_deque owner) }
    ensures parts { IfOk result (λ back. (worker_view back.popped.owner).parts
        ≡ (worker_view owner).parts) }
    ensures done { IfOk result (λ back. HasDone (T.makes tasks.now) (T.count tasks.now)
        (worker_view back.popped.owner) back.popped.done.items) }
    ensures length { IfOk result (λ back. vec_len back.hauls ≡ vec_len thieves) }
    ensures hauls { IfOk result (λ back. All (λ one. IfOk one (λ haul. IsHaul (T.makes tasks.now)
        (worker_deque owner) (T.count tasks.now) haul)) back.hauls.items) }
{
    let front = owner.stealer()?;
    let front = &front;
    let (hauls, popped) = join(
        rt,
        move || -> Hauls<T::Made>
            requires ready { T.ready tasks.now }
            requires thieves { All (IsThief (stealer_deque front.now) (T.count tasks.now))
                thieves.items }
            ensures length { IfOk result (λ hauls. vec_len hauls ≡ vec_len thieves) }
            ensures hauls { IfOk result (λ hauls. All (λ one. IfOk one (λ haul. IsHaul
                (T.makes tasks.entry.now) (stealer_deque front.entry.now)
                (T.count tasks.entry.now) haul)) hauls.items) }
        { steal_in_threads(rt, alloc, tasks, front, thieves) },
        move || -> Result<Popped<T::Made>, AllocError>
            requires ready { T.ready tasks.now }
            requires fifo { worker_flavor owner ≡ 0 }
            requires part { 0 < (worker_view owner).parts }
            requires knows { (worker_view owner).count ≡ T.count tasks.now }
            requires none { (worker_view owner).taken ≡ [] }
            ensures fifo { IfOk result (λ p. worker_flavor p.owner ≡ 0) }
            ensures deque { IfOk result (λ p. worker_deque p.owner ≡ worker_deque owner) }
            ensures parts { IfOk result (λ p. (worker_view p.owner).parts
                ≡ (worker_view owner).parts) }
            ensures done { IfOk result (λ p. HasDone (T.makes tasks.entry.now)
                (T.count tasks.entry.now) (worker_view p.owner) p.done.items) }
        { pop_first(rt, alloc, tasks, owner) },
    );
    let (popped, hauls) = both(popped, hauls)?;
    Ok(Back { popped, hauls })
}

/// Gathers what was brought back. What is left then, if anything, is done.
fn gathered<T: Tasks, R: Wait>(
    rt: &R,
    alloc: Global,
    tasks: &T,
    back: Back<T::Made>,
) -> Result<Vec<Done<T::Made>>, AllocError>
    requires ready { T.ready tasks.now }
    requires fifo { worker_flavor back.popped.owner ≡ 0 }
    requires part { 0 < (worker_view back.popped.owner).parts }
    requires parts { (worker_view back.popped.owner).parts + vec_len back.hauls ≡ all_parts }
    requires done { HasDone (T.makes tasks.now) (T.count tasks.now)
        (worker_view back.popped.owner) back.popped.done.items }
    requires hauls { All (λ one. IfOk one (λ haul. IsHaul (T.makes tasks.now)
        (worker_deque back.popped.owner) (T.count tasks.now) haul)) back.hauls.items }
    ensures done { IfOk result (λ all. AreDone (T.makes tasks.now) all.items) }
    ensures all { IfOk result (λ all. AreAll (T.count tasks.now) (numbers all.items)) }
{
    let Back { popped, hauls } = back;
    let Popped {
        mut owner,
        mut done,
    } = popped;
    gather(tasks, &mut owner, &mut done, hauls)?;
    pop_all(rt, alloc, tasks, &mut owner, &mut done)?;
    drop(owner);
    Ok(done)
}

/// The owner does all tasks.
fn do_alone<T: Tasks, R: Wait>(
    rt: &R,
    alloc: Global,
    tasks: &T,
    owner: Owner,
) -> Result<Vec<Done<T::Made>>, AllocError>
    requires ready { T.ready tasks.now }
    requires fifo { worker_flavor owner ≡ 0 }
    requires view { worker_view owner ≡ hand all_parts (T.count tasks.now) [] }
    ensures done { IfOk result (λ all. AreDone (T.makes tasks.now) all.items) }
    ensures all { IfOk result (λ all. AreAll (T.count tasks.now) (numbers all.items)) }
{
    let Popped { owner, done } = pop_first(rt, alloc, tasks, owner)?;
    drop(owner);
    Ok(done)
}

/// The owner and the thieves, if there are any, do all tasks.
fn do_all<T: Tasks + Sync, R: Threads + Wait + Sync>(
    rt: &R,
    alloc: Global,
    tasks: &T,
    owner: Owner,
    thieves: Vec<Thief>,
) -> Result<Vec<Done<T::Made>>, AllocError>
    requires ready { T.ready tasks.now }
    requires fifo { worker_flavor owner ≡ 0 }
    requires part { 0 < (worker_view owner).parts }
    requires parts { (worker_view owner).parts + vec_len thieves ≡ all_parts }
    requires knows { (worker_view owner).count ≡ T.count tasks.now }
    requires none { (worker_view owner).taken ≡ [] }
    requires thieves { All (IsThief (worker_deque owner) (T.count tasks.now)) thieves.items }
    ensures done { IfOk result (λ all. AreDone (T.makes tasks.now) all.items) }
    ensures all { IfOk result (λ all. AreAll (T.count tasks.now) (numbers all.items)) }
{
    if thieves.is_empty() {
        return do_alone(rt, alloc, tasks, owner);
    }
    let back = side_by_side(rt, alloc, tasks, owner, thieves)?;
    gathered(rt, alloc, tasks, back)
}

/// How many thieves there are: one task at least is the owner's.
fn thief_count(workers: u32, tasks: usize) -> u32
    ensures most { result ≤ workers }
    ensures fewer { 0 < result → result < tasks }
{
    match u32::try_from(tasks.saturating_sub(1)) {
        Ok(others) => workers.min(others),
        Err(_) => workers,
    }
}

/// Does all tasks, each once, in this thread and in at most so many others, of which there are
/// fewer than tasks: this thread is worker 0, the others are 1, 2 and so on. Where one meets want
/// of memory the others go on, and it is the answer.
pub fn run_round<T: Tasks + Sync, R: Threads + Wait + Sync>(
    rt: &R,
    alloc: Global,
    tasks: &T,
    workers: u32,
) -> Result<Round<T::Made>, AllocError>
    requires { T.ready tasks.now }
    ensures length { IfOk result (λ round. length round.made.items ≡ T.count tasks.now) }
    ensures made { IfOk result (λ round. AreMade (T.makes tasks.now) 0 round.made.items) }
    ensures once { IfOk result (λ round. IsPermutation (range_with_len 0 (T.count tasks.now))
        round.taken.items) }
{
    let count = tasks.count();
    let mut owner = filled(alloc, count)?;
    let thieves = thieves_of(alloc, &mut owner, thief_count(workers, count))?;
    let done = do_all(rt, alloc, tasks, owner, thieves)?;
    round_of(alloc, done)
}
