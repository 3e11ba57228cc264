//! One run of the job of a part that a worker holds.
ghost use Rattle.std.specs.Prelude.{◌≡◌, Some};
ghost use Rattle.hist_lock.specs.Known.{IsSameCaller};
ghost use Rattle.hist_lock.specs.Passes.{view, IsPassOf};
ghost use Rattle.worker_loop.specs.Held.{held_in};
ghost use Rattle.worker_loop.specs.Stays.{Stays};
ghost use Rattle.worker_loop.specs.Attempts.{AttemptedSo};

use crate::flag_stop::FlagStop;
use crate::jobs::{GiveUp, Ran, Work};
use hist_lock::{Pass, Shared, State};
use pide_base::{Flag, Gate, Point};
use std::alloc::Global;
use std::sync::Wait;

/// What one run of the job of a held part led to.
pub(crate) enum Attempt<J> {
    /// The part is finished or dropped.
    Over,
    /// There was not enough memory. The job can be run again.
    NoMemory(J),
    /// The part is still wanted: the job goes on, and is not to be stopped any more.
    GoOn(J),
}

/// Runs the job once, and hands in what it gave. The job is not to be stopped where `muted`.
pub(crate) fn run_once<S: State, W: Work<S>, R: Wait, G: Gate>(
    rt: &R,
    alloc: Global,
    worker: &W,
    lock: &Shared<S>,
    pass: &mut Pass<S>,
    who: u32,
    gate: &G,
    job: W::Job,
    flag: &Flag,
    muted: bool,
) -> Attempt<W::Job>
    requires own { IsPassOf lock.now pass.old }
    requires who { (view pass.old).caller ≡ who }
    requires holds { held_in W.says (view pass.old).mine ≡ Some (W.part_of job) }
    requires right { Stays S.legal (view pass.old).seen (λ log. W.fits log job) }
    ensures own { IsPassOf lock.now pass.new }
    ensures same { IsSameCaller (view pass.old) (view pass.new) }
    ensures attempted { AttemptedSo W.says W.part_of W.fits job (view pass.old) result
        (view pass.new) }
{
    let before_finish = Point::BeforeFinish(worker.part(&job));
    let mut stop = FlagStop::new(flag, gate, who, worker.part(&job), muted);
    match worker.run(alloc, job, &mut stop) {
        Ran::Done(done) => {
            gate.at(who, before_finish);
            lock.stay(rt, pass);
            worker.finish(rt, lock, pass, who, done);
            Attempt::Over
        }
        Ran::Stopped(stopped) => match worker.give_up(rt, lock, pass, who, stopped) {
            GiveUp::Dropped => Attempt::Over,
            GiveUp::GoOn(job) => Attempt::GoOn(job),
        },
        Ran::NoMemory(job) => Attempt::NoMemory(job),
    }
}
