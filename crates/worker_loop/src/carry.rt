//! The job of a part that a worker holds, carried to its end.
ghost use Rattle.std.specs.Prelude.{◌≡◌, None, Some};
ghost use Rattle.hist_lock.specs.Known.{IsSameCaller};
ghost use Rattle.hist_lock.specs.Passes.{view, IsPassOf};
ghost use Rattle.worker_loop.specs.Held.{held_in};
ghost use Rattle.worker_loop.specs.Stays.{Stays};
ghost use Rattle.worker_loop.specs.Worked.{RoundSo};

use crate::attempt::{Attempt, run_once};
use crate::jobs::Work;
use crate::worker::Worked;
use hist_lock::{Pass, Shared, State};
use pide_base::{Flag, Gate};
use std::alloc::Global;
use std::sync::Wait;

/// Runs the job until its part is finished or dropped, and None then. For want of memory it is run
/// again until all has ended.
pub(crate) fn carry_out<S: State, W: Work<S>, R: Wait, G: Gate>(
    rt: &R,
    alloc: Global,
    worker: &W,
    lock: &Shared<S>,
    pass: &mut Pass<S>,
    who: u32,
    gate: &G,
    job: W::Job,
    flag: &Flag,
) -> Option<Worked>
    requires own { IsPassOf lock.now pass.old }
    requires who { (view pass.old).caller ≡ who }
    requires holds { held_in W.says (view pass.old).mine ≡ Some (W.part_of job) }
    requires right { Stays S.legal (view pass.old).seen (λ log. W.fits log job) }
    ensures own { IsPassOf lock.now pass.new }
    ensures same { IsSameCaller (view pass.old) (view pass.new) }
    ensures round { RoundSo W.says (Some (W.part_of job)) (view pass.old) result (view pass.new) }
{
    let mut job = job;
    let mut muted = false;
    'runs: for _ in rt.forever() {
        match run_once(rt, alloc, worker, lock, pass, who, gate, job, flag, muted) {
            Attempt::Over => return None,
            Attempt::GoOn(back) => {
                job = back;
                muted = true;
            }
            Attempt::NoMemory(back) => {
                if worker.ended(rt, lock, pass) {
                    return Some(Worked::NoMemory);
                }
                job = back;
            }
        }
    }
    unreachable!()
}
