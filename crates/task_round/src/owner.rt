//! The owner of the deque.
ghost use Rattle.std.specs.Prelude.{◌≡◌, ◌<◌, [], IfOk, OnOk};
ghost use Rattle.crossbeam_deque.specs.Handles.{worker_flavor, worker_view, worker_deque, SameWorker};
ghost use Rattle.task_round.specs.Sharing.{all_parts, hand};
ghost use Rattle.task_round.specs.Rounds.{AreAll};
ghost use Rattle.task_round.specs.Workers.{HasDone, numbers};

use crate::hand::{Owner, Puts, Takes};
use crate::tasks::{Done, Tasks, done_by};
use std::alloc::{AllocError, Global};
use std::sync::Wait;

/// What the owner brings back.
#[derive(Drop)]
pub(crate) struct Popped<M> {
    pub owner: Owner,
    pub done: Vec<Done<M>>,
}

/// A deque of so many tasks, the first of them in front.
pub(crate) fn filled(alloc: Global, count: usize) -> Result<Owner, AllocError>
    ensures fifo { IfOk result (λ owner. worker_flavor owner ≡ 0) }
    ensures view { IfOk result (λ owner. worker_view owner ≡ hand all_parts count []) }
{
    let mut owner = Owner::fifo_as(alloc, count)?;
    'tasks: for task in 0..count {
        if owner.push_as::<Puts>(task).is_err() {
            unreachable!();
        }
    }
    Ok(owner)
}

/// Takes tasks at the front and does them, until there are none.
pub(crate) fn pop_all<T: Tasks, R: Wait>(
    rt: &R,
    alloc: Global,
    tasks: &T,
    owner: &mut Owner,
    done: &mut Vec<Done<T::Made>>,
) -> Result<(), AllocError>
    requires ready { T.ready tasks.now }
    requires fifo { worker_flavor owner.old ≡ 0 }
    requires part { 0 < (worker_view owner.old).parts }
    requires done { HasDone (T.makes tasks.now) (T.count tasks.now) (worker_view owner.old)
        done.old.items }
    ensures same { SameWorker owner.old owner.new }
    ensures parts { (worker_view owner.new).parts ≡ (worker_view owner.old).parts }
    ensures done { OnOk result (HasDone (T.makes tasks.now) (T.count tasks.now)
        (worker_view owner.new) done.new.items) }
    ensures all { OnOk result ((worker_view owner.new).parts ≡ all_parts
        → AreAll (T.count tasks.now) (numbers done.new.items)) }
{
    'popping: for _ in rt.forever() {
        match owner.pop_as::<Takes>() {
            Some(task) => done.push(done_by(alloc, tasks, 0, task)?)?,
            None => return Ok(()),
        }
    }
    unreachable!()
}

/// The owner does tasks until there are none.
pub(crate) fn pop_first<T: Tasks, R: Wait>(
    rt: &R,
    alloc: Global,
    tasks: &T,
    owner: Owner,
) -> Result<Popped<T::Made>, AllocError>
    requires ready { T.ready tasks.now }
    requires fifo { worker_flavor owner ≡ 0 }
    requires part { 0 < (worker_view owner).parts }
    requires knows { (worker_view owner).count ≡ T.count tasks.now }
    requires none { (worker_view owner).taken ≡ [] }
    ensures fifo { IfOk result (λ p. worker_flavor p.owner ≡ 0) }
    ensures deque { IfOk result (λ p. worker_deque p.owner ≡ worker_deque owner) }
    ensures parts { IfOk result (λ p. (worker_view p.owner).parts ≡ (worker_view owner).parts) }
    ensures done { IfOk result (λ p. HasDone (T.makes tasks.now) (T.count tasks.now)
        (worker_view p.owner) p.done.items) }
    ensures all { IfOk result (λ p. (worker_view p.owner).parts ≡ all_parts
        → AreAll (T.count tasks.now) (numbers p.done.items)) }
{
    let mut owner = owner;
    let mut done = Vec::new(alloc);
    pop_all(rt, alloc, tasks, &mut owner, &mut done)?;
    Ok(Popped { owner, done })
}
