//! A caller that works on one part beside what else it does.
ghost use Rattle.std.specs.Prelude.{◌≡◌, None, Some, OnOk, OnErr};
ghost use Rattle.hist_lock.specs.Known.{IsSameCaller};
ghost use Rattle.hist_lock.specs.Passes.{view, IsPassOf};
ghost use Rattle.worker_loop.specs.Held.{held_in};
ghost use Rattle.worker_loop.specs.Rounds.{GoesOn};
ghost use Rattle.worker_loop.specs.Stays.{SeesOn, Stays};

use crate::attempt::{Attempt, run_once};
use crate::jobs::Work;
use hist_lock::{Pass, Shared, State};
use pide_base::{Flag, Gate, Point};
use std::alloc::{AllocError, Global};
use std::sync::Wait;

/// Works on the part that the caller has just claimed, until it is finished or dropped. For want of
/// memory it is not tried again: the caller then still holds the part.
pub fn help<S: State, W: Work<S>, R: Wait, G: Gate>(
    rt: &R,
    alloc: Global,
    worker: &W,
    lock: &Shared<S>,
    pass: &mut Pass<S>,
    who: u32,
    gate: &G,
    job: W::Job,
    flag: &Flag,
) -> Result<(), AllocError>
    requires own { IsPassOf lock.now pass.old }
    requires who { (view pass.old).caller ≡ who }
    requires holds { held_in W.says (view pass.old).mine ≡ Some (W.part_of job) }
    requires right { Stays S.legal (view pass.old).seen (λ log. W.fits log job) }
    ensures own { IsPassOf lock.now pass.new }
    ensures same { IsSameCaller (view pass.old) (view pass.new) }
    ensures ok { OnOk result (GoesOn W.says (view pass.old) (Some (W.part_of job))
        (view pass.new) None) }
    ensures err { OnErr result (SeesOn (view pass.old) (view pass.new)) }
{
    gate.at(who, Point::Claimed(worker.part(&job)));
    let mut job = job;
    let mut muted = false;
    'runs: for _ in rt.forever() {
        match run_once(rt, alloc, worker, lock, pass, who, gate, job, flag, muted) {
            Attempt::Over => return Ok(()),
            Attempt::NoMemory(_) => return Err(AllocError),
            Attempt::GoOn(back) => {
                job = back;
                muted = true;
            }
        }
    }
    unreachable!()
}
