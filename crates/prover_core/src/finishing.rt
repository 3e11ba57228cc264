//! Parts that are done or let go.
ghost use Rattle.std.specs.Prelude.{◌≡◌, Some};
ghost use Rattle.core_jobs.specs.Fits.{IsDoneOf};
ghost use Rattle.core_rules.specs.Standing.{held};
ghost use Rattle.core_rules.specs.Doc.{doc};
ghost use Rattle.core_rules.specs.Legal.{IsLegal};
ghost use Rattle.prover_core.specs.Answers.{FinishedSo, GivenUpSo};

use crate::following::{brought, follow, forks_told, is_present, same};
use crate::prover::Core;
use crate::table::take_out;
use core_jobs::{Done, Job};
use core_rules::{Event, holders_law, tip_law};
use language::Language;
use pide_base::Part;

/// What became of a part that was done.
#[derive(Clone, Copy, Debug, PartialEq, Eq)]
pub enum Finish {
    Finished,
    /// Its execution is cancelled or in no live version: what was done is let go.
    Dropped,
}

/// What became of a part whose job was stopped.
#[derive(Drop)]
pub enum GiveUp<S> {
    /// Its execution is cancelled or in no live version.
    Dropped,
    /// It is still wanted. The job goes on.
    GoOn(Job<S>),
}

impl<L: Language> Core<L> {
    /// Takes in what came of the part that the worker holds. It takes no memory.
    pub fn finish(&mut self, who: u32, done: Done<L::State>) -> Finish
        requires holds { held self.old.past who ≡ Some done.part }
        requires right { IsDoneOf L.lang (doc L.lang self.old.past).homes done }
        ensures finished { FinishedSo L.lang who done.part self.old.past result self.new.past }
        ensures legal { IsLegal L.lang self.new.past }
    {
        tip_law::<L>();
        holders_law::<L>();
        let Part { exec, kind } = same(&done.part);
        take_out(&mut self.holders, who);
        if !is_present(&self.queue, exec) {
            drop(done);
            let part = Part { exec, kind };
            let dropped = Event::Dropped { who, part };
            self.past.add(dropped);
            return Finish::Dropped;
        }
        let forks = forks_told(&done);
        let taken = self.execs.finish(exec, brought(done, forks));
        let is_lost = taken.is_err();
        drop(taken);
        if is_lost {
            unreachable!()
        }
        follow(self.alloc, &mut self.queue, exec, kind, forks);
        let part = Part { exec, kind };
        let finished = Event::Finished { who, part };
        self.past.add(finished);
        Finish::Finished
    }

    /// The worker gives up the part that it holds, unless that is still wanted. It takes no memory.
    pub fn give_up(&mut self, who: u32, job: Job<L::State>) -> GiveUp<L::State>
        requires holds { held self.old.past who ≡ Some job.part }
        ensures given_up { GivenUpSo L.lang who job self.old.past result self.new.past }
        ensures legal { IsLegal L.lang self.new.past }
    {
        tip_law::<L>();
        holders_law::<L>();
        let Part { exec, kind } = job.part();
        if is_present(&self.queue, exec) {
            return GiveUp::GoOn(job);
        }
        take_out(&mut self.holders, who);
        let part = Part { exec, kind };
        let dropped = Event::Dropped { who, part };
        self.past.add(dropped);
        GiveUp::Dropped
    }
}
