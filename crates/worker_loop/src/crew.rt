//! Workers in threads of their own.
ghost use Rattle.std.specs.Prelude.{◌≡◌, ◌≤◌, ◌+◌, ◌<◌, ◌^◌, [], ◌∷◌, ◌++◌, vec_len, vec_capacity};
ghost use Rattle.std.specs.Prelude.{IfSome, IfNone, IfOk, IfErr};
ghost use Rattle.std.specs.Thread.{IsSync};
ghost use Rattle.worker_loop.specs.Crew.{AreBack, AreWorkers, HasWorked, HaveWorked, IsWorker};

use crate::jobs::Work;
use crate::worker::{Shift, work};
use hist_lock::{Pass, Shared, State};
use pide_base::Gate;
use std::alloc::{AllocFailed, Global};
use std::sync::Wait;
use std::thread::{Threads, join};

/// Takes the pass of the last worker.
pub(crate) fn last_worker<S: State, W: Work<S>>(
    lock: &Shared<S>,
    passes: &mut Vec<Pass<S>>,
) -> Option<Pass<S>>
    requires workers { AreWorkers W.says lock.now 1 passes.old.items }
    ensures none { IfNone result (passes.old.items ≡ []) }
    ensures some { IfSome result (λ p. passes.old.items ≡ passes.new.items ++ p ∷ []) }
    ensures length { IfSome result (λ p. vec_len passes.new + 1 ≡ vec_len passes.old) }
    ensures worker { IfSome result (λ p. IsWorker W.says lock.now (vec_len passes.old) p
        × AreWorkers W.says lock.now 1 passes.new.items) }
{
    passes.pop()
}

/// Puts something behind the others. There is room for it.
pub(crate) fn put<T: Drop>(items: &mut Vec<T>, last: T)
    requires room { vec_len items.old < vec_capacity items.old }
    ensures put { items.new.items ≡ items.old.items ++ last ∷ [] }
    ensures length { vec_len items.new ≡ vec_len items.old + 1 }
    ensures room { vec_capacity items.old ≤ vec_capacity items.new }
{
    if items.push(last).is_err() {
        unreachable!();
    }
}

// The workers 1 to `count` work, each in a thread of its own. There is room for what they bring
// back.
fn work_all<S: State + Send, W: Work<S> + Sync, R: Threads + Wait + Sync, G: Gate + Sync>(
    rt: &R,
    alloc: Global,
    worker: &W,
    lock: &Shared<S>,
    passes: Vec<Pass<S>>,
    count: u32,
    gate: &G,
    shifts: Vec<Shift<S>>,
) -> Vec<Shift<S>>
where
    W::Job: Send,
    W::Done: Send,
    requires count { vec_len passes ≡ count }
    requires workers { AreWorkers W.says lock.now 1 passes.items }
    requires room { vec_len passes ≤ vec_capacity shifts }
    requires empty { shifts.items ≡ [] }
    ensures worked { HaveWorked W.says lock.now passes.items result.items }
    ensures length { vec_len result ≡ vec_len passes }
    ensures room { vec_capacity shifts ≤ vec_capacity result }
{
    let mut passes = passes;
    let Some(pass) = last_worker::<S, W>(lock, &mut passes) else {
        return shifts;
    };
    let (mut shifts, last) = join(
        rt,
        move || -> Vec<Shift<S>>
            requires sync { IsSync R.row }
            requires count { vec_len passes + 1 ≡ count }
            requires workers { AreWorkers W.says lock.now 1 passes.items }
            requires room { vec_len passes ≤ vec_capacity shifts }
            requires empty { shifts.items ≡ [] }
            ensures worked { HaveWorked W.says lock.entry.now passes.items result.items }
            ensures length { vec_len result ≡ vec_len passes }
            ensures room { vec_capacity shifts ≤ vec_capacity result }
        { work_all(rt, alloc, worker, lock, passes, count - 1, gate, shifts) },
        move || -> Shift<S>
            requires worker { IsWorker W.says lock.now count pass }
            ensures worked { HasWorked W.says lock.entry.now pass result }
        { work(rt, alloc, worker, lock, pass, count, gate) },
    );
    put(&mut shifts, last);
    shifts
}

/// Lets workers 1, 2 and so on work, each in a thread of its own, until all have stopped, and hands
/// back what each of them brought. For want of memory none begins, and the passes come back.
pub fn run_workers<S: State + Send, W: Work<S> + Sync, R: Threads + Wait + Sync, G: Gate + Sync>(
    rt: &R,
    alloc: Global,
    worker: &W,
    lock: &Shared<S>,
    passes: Vec<Pass<S>>,
    gate: &G,
) -> Result<Vec<Shift<S>>, AllocFailed<Vec<Pass<S>>>>
where
    W::Job: Send,
    W::Done: Send,
    requires few { vec_len passes < 2 ^ 32 }
    requires workers { AreWorkers W.says lock.now 1 passes.items }
    ensures ok { IfOk result (λ shifts. HaveWorked W.says lock.now passes.items shifts.items) }
    ensures length { IfOk result (λ shifts. vec_len shifts ≡ vec_len passes) }
    ensures back { IfOk result (λ shifts. AreBack W.says lock.now 1 shifts.items) }
    ensures err { IfErr result (λ failed. failed.value ≡ passes) }
{
    let count = passes.len() as u32;
    match Vec::with_capacity(alloc, passes.len()) {
        Ok(shifts) => Ok(work_all(rt, alloc, worker, lock, passes, count, gate, shifts)),
        Err(_) => Err(AllocFailed { value: passes }),
    }
}
