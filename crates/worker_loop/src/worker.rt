//! A worker's loop.
ghost use Rattle.std.specs.Prelude.{◌≡◌, None, Some};
ghost use Rattle.hist_lock.specs.Known.{IsSameCaller};
ghost use Rattle.hist_lock.specs.Passes.{view, IsPassOf};
ghost use Rattle.worker_loop.specs.Held.{held_in};
ghost use Rattle.worker_loop.specs.Worked.{WorkedSo, RoundSo};

use crate::carry::carry_out;
use crate::jobs::{Claim, Work};
use hist_lock::{Pass, Shared, State};
use pide_base::{Gate, Point};
use std::alloc::Global;
use std::sync::Wait;

/// Why a worker stopped.
#[derive(Clone, Copy, Debug, PartialEq, Eq)]
pub enum Worked {
    /// All has ended, and the worker holds nothing.
    Ended,
    /// The writer's sink failed, and the worker holds nothing.
    WriteFault,
    /// All has ended, and there was not enough memory for a claim, or for the job of the part that
    /// the worker still holds.
    NoMemory,
}

/// What a worker brings back.
#[derive(Drop)]
pub struct Shift<S: State> {
    pub pass: Pass<S>,
    pub worked: Worked,
}

// One claim, and what follows from it. None where the worker goes on.
fn round<S: State, W: Work<S>, R: Wait, G: Gate>(
    rt: &R,
    alloc: Global,
    worker: &W,
    lock: &Shared<S>,
    pass: &mut Pass<S>,
    who: u32,
    gate: &G,
) -> Option<Worked>
    requires own { IsPassOf lock.now pass.old }
    requires who { (view pass.old).caller ≡ who }
    requires free { held_in W.says (view pass.old).mine ≡ None }
    ensures own { IsPassOf lock.now pass.new }
    ensures same { IsSameCaller (view pass.old) (view pass.new) }
    ensures round { RoundSo W.says None (view pass.old) result (view pass.new) }
{
    match worker.claim(rt, lock, pass, who) {
        Claim::Job { job, flag } => {
            gate.at(who, Point::Claimed(worker.part(&job)));
            carry_out(rt, alloc, worker, lock, pass, who, gate, job, &flag)
        }
        Claim::Nothing => {
            lock.wait_change(rt, pass);
            None
        }
        Claim::Ended => Some(Worked::Ended),
        Claim::Lost => Some(Worked::WriteFault),
        Claim::NoMemory => {
            if worker.ended(rt, lock, pass) {
                return Some(Worked::NoMemory);
            }
            None
        }
    }
}

/// Works until all has ended. A claim or a job that meets want of memory is tried again until then.
pub fn work<S: State, W: Work<S>, R: Wait, G: Gate>(
    rt: &R,
    alloc: Global,
    worker: &W,
    lock: &Shared<S>,
    pass: Pass<S>,
    who: u32,
    gate: &G,
) -> Shift<S>
    requires own { IsPassOf lock.now pass }
    requires who { (view pass).caller ≡ who }
    requires free { held_in W.says (view pass).mine ≡ None }
    ensures own { IsPassOf lock.now result.pass }
    ensures same { IsSameCaller (view pass) (view result.pass) }
    ensures worked { WorkedSo W.says (view pass) result.worked (view result.pass) }
{
    let mut pass = pass;
    'rounds: for _ in rt.forever() {
        if let Some(worked) = round(rt, alloc, worker, lock, &mut pass, who, gate) {
            return Shift { pass, worked };
        }
    }
    unreachable!()
}
