//! How workers work on a state: what they ask of it in turns, and how a job is run.
ghost use Rattle.std.specs.Prelude.{◌≡◌, ℕ, List, Some, None};
ghost use Rattle.hist_lock.specs.Known.{IsSameCaller};
ghost use Rattle.hist_lock.specs.Passes.{view, IsPassOf};
ghost use Rattle.worker_loop.specs.Held.{held_in};
ghost use Rattle.worker_loop.specs.Stays.{Stays};
ghost use Rattle.worker_loop.specs.declared.said.Said.{Said};
ghost use Rattle.pide_base.specs.declared.part.Part.{Part};
ghost use Rattle.worker_loop.specs.Answers.{ClaimedSo, FinishedSo, GivenUpSo, LookedSo, RanSo};
ghost use Rattle.worker_loop.specs.Questions.{WorkAsks};

use hist_lock::{Pass, Shared, State};
use pide_base::{Flag, Part, Stop};
use std::alloc::Global;
use std::sync::Wait;

/// What a claim gave.
pub enum Claim<J> {
    /// The job of the part that is now claimed, and the flag that asks the job to stop.
    Job { job: J, flag: Flag },
    /// Nothing is to be done before another entry comes.
    Nothing,
    Ended,
    Lost,
    /// Nothing was claimed: there was not enough memory, or the caller may not claim.
    NoMemory,
}

/// What became of the part of a job that is done.
#[derive(Clone, Copy, Debug, PartialEq, Eq)]
pub enum Finish {
    Finished,
    /// Its execution was cancelled, or no live version has it.
    Dropped,
}

/// What became of the part of a job that was stopped.
pub enum GiveUp<J> {
    /// Its execution was cancelled, or no live version has it.
    Dropped,
    /// The part is still wanted: the job goes on.
    GoOn(J),
}

/// How a run of a job ended.
pub enum Ran<J, D> {
    Done(D),
    /// It was asked to stop. The job is as it was.
    Stopped(J),
    /// There was not enough memory. The job can be run again.
    NoMemory(J),
}

/// How parts of a state are worked on. The calls that take a pass are one turn each.
pub trait Work<S: State> {
    type Job: Drop;

    type Done: Drop;

    /// What an entry says.
    ghost says: { S.Entry → Said };

    /// The part that a job is of.
    ghost part_of: { Self.Job → Part };

    /// The part that was done.
    ghost part_done: { Self.Done → Part };

    /// After this history the job is the one that its part asks for.
    ghost fits: { List S.Entry → Self.Job → Type 0 };

    /// After this history it is what its part has to give.
    ghost answers: { List S.Entry → Self.Done → Type 0 };

    /// The job was stopped by a yes of its stop.
    ghost was_stopped: { Self.Job → Type 0 };

    /// How often a run of the job asks whether to stop.
    ghost questions: { Self.Job → ℕ };

    /// Claims the first part that is ready. The caller holds none. One that may not claim is given
    /// none, and answered NoMemory.
    fn claim<R: Wait>(
        &self,
        rt: &R,
        lock: &Shared<S>,
        pass: &mut Pass<S>,
        who: u32,
    ) -> Claim<Self::Job>
        requires own { IsPassOf lock.now pass.old }
        requires who { (view pass.old).caller ≡ who }
        requires free { held_in says (view pass.old).mine ≡ None }
        ensures own { IsPassOf lock.now pass.new }
        ensures same { IsSameCaller (view pass.old) (view pass.new) }
        ensures claimed { ClaimedSo says S.legal S.idle part_of fits (view pass.old) result
            (view pass.new) };

    /// Hands in what the job of the part that the caller holds gave. It takes no memory.
    fn finish<R: Wait>(
        &self,
        rt: &R,
        lock: &Shared<S>,
        pass: &mut Pass<S>,
        who: u32,
        done: Self::Done,
    ) -> Finish
        requires own { IsPassOf lock.now pass.old }
        requires who { (view pass.old).caller ≡ who }
        requires holds { held_in says (view pass.old).mine ≡ Some (part_done done) }
        requires right { Stays S.legal (view pass.old).seen (λ log. answers log done) }
        ensures own { IsPassOf lock.now pass.new }
        ensures same { IsSameCaller (view pass.old) (view pass.new) }
        ensures finished { FinishedSo says (part_done done) (view pass.old) result
            (view pass.new) };

    /// Gives the part that the caller holds up, if it is not wanted any more. Its job was stopped.
    fn give_up<R: Wait>(
        &self,
        rt: &R,
        lock: &Shared<S>,
        pass: &mut Pass<S>,
        who: u32,
        job: Self::Job,
    ) -> GiveUp<Self::Job>
        requires own { IsPassOf lock.now pass.old }
        requires who { (view pass.old).caller ≡ who }
        requires holds { held_in says (view pass.old).mine ≡ Some (part_of job) }
        requires right { Stays S.legal (view pass.old).seen (λ log. fits log job) }
        requires stopped { was_stopped job }
        ensures own { IsPassOf lock.now pass.new }
        ensures same { IsSameCaller (view pass.old) (view pass.new) }
        ensures given_up { GivenUpSo says job (part_of job) (view pass.old) result
            (view pass.new) };

    /// Whether all has ended.
    fn ended<R: Wait>(&self, rt: &R, lock: &Shared<S>, pass: &mut Pass<S>) -> bool
        requires own { IsPassOf lock.now pass.old }
        ensures own { IsPassOf lock.now pass.new }
        ensures same { IsSameCaller (view pass.old) (view pass.new) }
        ensures looked { LookedSo says (view pass.old) result (view pass.new) };

    /// The part that a job is of.
    fn part(&self, job: &Self::Job) -> Part
        ensures { result ≡ part_of job.now };

    /// Runs a job, without the lock.
    fn run<P: Stop>(
        &self,
        alloc: Global,
        job: Self::Job,
        stop: &mut P,
    ) -> Ran<Self::Job, Self::Done>
        ensures ran { RanSo part_of part_done fits answers was_stopped (P.yeses stop.old)
            (P.yeses stop.new) job result }
        ensures asks { WorkAsks result (questions job) (P.questions stop.old)
            (P.questions stop.new) };
}
