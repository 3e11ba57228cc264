//! The workers and the writer of the board.
ghost use Rattle.std.specs.Prelude.{◌≡◌, ◌++◌, ◌∷◌, [], None};
ghost use mathlib.Core.List.{IsPrefix};
ghost use Rattle.hist_lock.specs.Known.{IsSameCaller};
ghost use Rattle.hist_lock.specs.Passes.{view, IsPassOf};
ghost use Rattle.worker_loop.specs.Sending.{KnowsOwn};

use super::board::{Add, Board, Look, Mark, Take, Task};
use hist_lock::{Pass, Shared};
use pide_base::{Part, Stop};
use std::alloc::Global;
use std::sync::Wait;
use worker_loop::{Claim, Finish, GiveUp, Ran, Said, Work};

/// Adds an entry of the caller's, as soon as there is memory.
pub(super) fn add<R: Wait>(rt: &R, lock: &Shared<Board>, pass: &mut Pass<Board>, mark: Mark)
    requires own { IsPassOf lock.now pass.old }
    requires by { (view pass.old).caller ≡ mark.by }
    ensures own { IsPassOf lock.now pass.new }
    ensures same { IsSameCaller (view pass.old) (view pass.new) }
    ensures made { (view pass.new).mine ≡ (view pass.old).mine ++ mark ∷ [] }
    ensures knows { KnowsOwn (λ m. m.by) (view pass.new) }
{
    let mut mark = mark;
    'adding: for _ in rt.forever() {
        match lock.turn(rt, pass, Add { mark }) {
            Ok(()) => return,
            Err(back) => mark = back,
        }
    }
    unreachable!()
}

/// Adds an entry of the caller's by which no byte is sent, as soon as there is memory.
pub(super) fn say<R: Wait>(
    rt: &R,
    lock: &Shared<Board>,
    pass: &mut Pass<Board>,
    by: u32,
    what: Said,
)
    requires own { IsPassOf lock.now pass.old }
    requires by { (view pass.old).caller ≡ by }
    ensures own { IsPassOf lock.now pass.new }
    ensures same { IsSameCaller (view pass.old) (view pass.new) }
    ensures made { (view pass.new).mine
        ≡ (view pass.old).mine ++ record { by = by; what = what; byte = None } ∷ [] }
    ensures knows { KnowsOwn (λ m. m.by) (view pass.new) }
{
    let mark = Mark {
        by,
        what,
        byte: None,
    };
    add(rt, lock, pass, mark)
}

/// What a worker of the board does: it asks once whether to stop.
pub(super) struct Hands;

/// A part that is claimed.
#[derive(Clone, Copy)]
pub(super) struct Job {
    pub(super) part: Part,
}

impl Work<Board> for Hands {
    type Job = Job;

    type Done = Job;

    ghost says = { λ m. m.what };

    ghost part_of = { λ j. j.part };

    ghost part_done = { λ d. d.part };

    ghost fits = { λ log j. Unit {0} };

    ghost answers = { λ log d. Unit {0} };

    ghost was_stopped = { λ j. Unit {0} };

    ghost questions = { λ j. 1 };

    fn claim<R: Wait>(
        &self,
        rt: &R,
        lock: &Shared<Board>,
        pass: &mut Pass<Board>,
        who: u32,
    ) -> Claim<Job> {
        match lock.turn(rt, pass, Take { by: who }) {
            Ok(Task { part, flag }) => Claim::Job {
                job: Job { part },
                flag,
            },
            Err(None) => Claim::Nothing,
            Err(Some(mark)) => match mark.what {
                Said::Ended => Claim::Ended,
                Said::Lost => Claim::Lost,
                _ => Claim::Nothing,
            },
        }
    }

    fn finish<R: Wait>(
        &self,
        rt: &R,
        lock: &Shared<Board>,
        pass: &mut Pass<Board>,
        who: u32,
        done: Job,
    ) -> Finish {
        say(rt, lock, pass, who, Said::Finished(done.part));
        Finish::Finished
    }

    fn give_up<R: Wait>(
        &self,
        rt: &R,
        lock: &Shared<Board>,
        pass: &mut Pass<Board>,
        who: u32,
        job: Job,
    ) -> GiveUp<Job> {
        say(rt, lock, pass, who, Said::Dropped(job.part));
        GiveUp::Dropped
    }

    fn ended<R: Wait>(&self, rt: &R, lock: &Shared<Board>, pass: &mut Pass<Board>) -> bool {
        match lock.turn(rt, pass, Look) {
            Some(mark) => matches!(mark.what, Said::Ended),
            None => false,
        }
    }

    fn part(&self, job: &Job) -> Part {
        job.part
    }

    fn run<P: Stop>(&self, alloc: Global, job: Job, stop: &mut P) -> Ran<Job, Job> {
        if stop.asked() {
            return Ran::Stopped(job);
        }
        Ran::Done(job)
    }
}
