//! The thieves, each in a thread of its own.
ghost use Rattle.std.specs.Prelude.{◌≡◌, ◌-◌, ◌<◌, ◌^◌, [], vec_len, IfOk, OnOk};
ghost use Rattle.std.specs.List.{All};
ghost use Rattle.crossbeam_deque.specs.Handles.{stealer_deque, worker_deque, worker_view, SameWorker};
ghost use Rattle.task_round.specs.Sharing.{all_parts, hand};
ghost use Rattle.task_round.specs.Workers.{IsHaul, IsThief};

use crate::hand::{Front, Owner, Share, Shares, Takes};
use crate::tasks::{Done, Tasks, done_by};
use crossbeam_deque::Steal;
use std::alloc::{AllocError, Global};
use std::sync::Wait;
use std::thread::{Threads, map_vec};

/// A thief that is about to begin.
#[derive(Drop)]
pub(crate) struct Thief {
    /// Its number among the workers.
    pub number: u32,
    pub share: Share,
}

/// What a thief brings back.
#[derive(Drop)]
pub(crate) struct Haul<M> {
    pub share: Share,
    pub done: Vec<Done<M>>,
}

/// What the thieves bring back, where there was enough memory to let each of them begin. One that
/// stopped for want of memory brings nothing.
pub(crate) type Hauls<M> = Result<Vec<Result<Haul<M>, AllocError>>, AllocError>;

/// So many thieves, of whom each is given a part.
pub(crate) fn thieves_of(
    alloc: Global,
    owner: &mut Owner,
    wanted: u32,
) -> Result<Vec<Thief>, AllocError>
    requires all { (worker_view owner.old).parts ≡ all_parts }
    requires none { (worker_view owner.old).taken ≡ [] }
    ensures same { SameWorker owner.old owner.new }
    ensures view { OnOk result (worker_view owner.new
        ≡ hand (all_parts - wanted) (worker_view owner.old).count []) }
    ensures length { IfOk result (λ thieves. vec_len thieves ≡ wanted) }
    ensures thieves { IfOk result (λ thieves. All (IsThief (worker_deque owner.old)
        (worker_view owner.old).count) thieves.items) }
{
    let mut thieves = Vec::with_capacity(alloc, wanted as usize)?;
    'thieves: for before in 0..wanted {
        let share = owner.another::<Shares>();
        thieves.push(Thief {
            number: before + 1,
            share,
        })?;
    }
    Ok(thieves)
}

/// Takes tasks at the front and does them, until there are none.
fn steal_all<T: Tasks, R: Wait>(
    rt: &R,
    alloc: Global,
    tasks: &T,
    front: &Front,
    thief: Thief,
) -> Result<Haul<T::Made>, AllocError>
    requires ready { T.ready tasks.now }
    requires thief { IsThief (stealer_deque front.now) (T.count tasks.now) thief }
    ensures { IfOk result (λ haul. IsHaul (T.makes tasks.now) (stealer_deque front.now)
        (T.count tasks.now) haul) }
{
    let Thief { number, mut share } = thief;
    let mut done = Vec::new(alloc);
    'stealing: for _ in rt.forever() {
        match front.steal_as::<Takes>(&mut share) {
            Steal::Success(task) => done.push(done_by(alloc, tasks, number, task)?)?,
            Steal::Empty => return Ok(Haul { share, done }),
            Steal::Retry => {}
        }
    }
    unreachable!()
}

/// Lets each thief do tasks in a thread of its own.
pub(crate) fn steal_in_threads<T: Tasks + Sync, R: Threads + Wait + Sync>(
    rt: &R,
    alloc: Global,
    tasks: &T,
    front: &Front,
    thieves: Vec<Thief>,
) -> Hauls<T::Made>
    requires ready { T.ready tasks.now }
    requires thieves { All (IsThief (stealer_deque front.now) (T.count tasks.now)) thieves.items }
    ensures length { IfOk result (λ hauls. vec_len hauls ≡ vec_len thieves) }
    ensures hauls { IfOk result (λ hauls. All (λ one. IfOk one (λ haul. IsHaul (T.makes tasks.now)
        (stealer_deque front.now) (T.count tasks.now) haul)) hauls.items) }
{
    map_vec(
        rt,
        thieves,
        &|thief: Thief| -> Result<Haul<T::Made>, AllocError>
            requires ready { T.ready tasks.now }
            requires thief { IsThief (stealer_deque front.now) (T.count tasks.now) thief }
            ensures { IfOk result (λ haul. IsHaul (T.makes tasks.entry.now)
                (stealer_deque front.entry.now) (T.count tasks.entry.now) haul) }
        { steal_all(rt, alloc, tasks, front, thief) },
    )
}
