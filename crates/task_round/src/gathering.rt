//! What the thieves bring back, put to what the owner has.
ghost use Rattle.std.specs.Prelude.{◌≡◌, ◌+◌, ◌<◌, ◌∷◌, [], ◌++◌, vec_len, IfOk, IfSome, IfNone, OnOk};
ghost use Rattle.std.specs.List.{All};
ghost use Rattle.crossbeam_deque.specs.Handles.{worker_deque, worker_view, SameWorker};
ghost use Rattle.task_round.specs.Sharing.{all_parts};
ghost use Rattle.task_round.specs.Workers.{HasDone, IsHaul};

use crate::hand::{Owner, Shares};
use crate::tasks::{Done, Tasks};
use crate::thieves::Haul;
use std::alloc::AllocError;

/// Takes what a thief brings: its part, and the tasks that it has done.
fn take<T: Tasks>(
    tasks: &T,
    owner: &mut Owner,
    done: &mut Vec<Done<T::Made>>,
    haul: Haul<T::Made>,
) -> Result<(), AllocError>
    requires part { 0 < (worker_view owner.old).parts }
    requires done { HasDone (T.makes tasks.now) (T.count tasks.now) (worker_view owner.old)
        done.old.items }
    requires haul { IsHaul (T.makes tasks.now) (worker_deque owner.old) (T.count tasks.now) haul }
    ensures same { SameWorker owner.old owner.new }
    ensures parts { (worker_view owner.new).parts ≡ (worker_view owner.old).parts + 1 }
    ensures done { OnOk result (HasDone (T.makes tasks.now) (T.count tasks.now)
        (worker_view owner.new) done.new.items) }
{
    let mut haul = haul;
    owner.absorb::<Shares>(haul.share);
    done.append(&mut haul.done)?;
    Ok(())
}

/// Takes what all thieves bring. It fails where one of them stopped for want of memory.
pub(crate) fn gather<T: Tasks>(
    tasks: &T,
    owner: &mut Owner,
    done: &mut Vec<Done<T::Made>>,
    hauls: Vec<Result<Haul<T::Made>, AllocError>>,
) -> Result<(), AllocError>
    requires part { 0 < (worker_view owner.old).parts }
    requires parts { (worker_view owner.old).parts + vec_len hauls ≡ all_parts }
    requires done { HasDone (T.makes tasks.now) (T.count tasks.now) (worker_view owner.old)
        done.old.items }
    requires hauls { All (λ one. IfOk one (λ haul. IsHaul (T.makes tasks.now)
        (worker_deque owner.old) (T.count tasks.now) haul)) hauls.items }
    ensures same { SameWorker owner.old owner.new }
    ensures parts { OnOk result ((worker_view owner.new).parts ≡ all_parts) }
    ensures done { OnOk result (HasDone (T.makes tasks.now) (T.count tasks.now)
        (worker_view owner.new) done.new.items) }
{
    let mut hauls = hauls;
    'gathering: while let Some(haul) = hauls.pop() {
        take(tasks, owner, done, haul?)?;
    }
    Ok(())
}
