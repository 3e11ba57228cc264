//! The reader and workers.

use crate::claiming::{ClaimTurn, Claiming};
use crate::ending::{FinishTurn, GiveUpTurn};
use crate::locked::Locked;
use crate::watching::look;
use document_session::session_replies_below::{SessionDone, SessionJob, SessionRan};
use document_session::{Finish as SessionFinish, GiveUp as SessionGiveUp};
use hist_lock::{Pass, Shared};
use language::Language;
use pide_base::{Part, Stop};
use reply_outbox::Past;
use session_rules::{Entry, Service};
use std::alloc::Global;
use std::sync::Wait;
use view_laws::{handed_law, holders_law, list_law, reader_law, works_law};
use worker_loop::{Claim, Finish, GiveUp, Ran, Work};

/// Works on a session's parts: each turn is one of the session's, and a job is the language's.
#[derive(Drop)]
pub struct Crew<'a, L> {
    pub alloc: Global,
    pub lang: &'a L,
}

impl<'a, L: Language, P: Past<Service, Entry> + Drop> Work<Locked<L, P>> for Crew<'a, L> {
    ghost use Rattle.core_jobs.specs.Questions.{questions_by};
    ghost use Rattle.view_laws.specs.Says.{says};
    ghost use Rattle.view_laws.specs.Works.{IsRightDone, IsRightWork};

    type Job = SessionJob<L::State>;

    type Done = SessionDone<L::State>;

    ghost says = { says };

    ghost part_of = { λ job. job.job.part };

    ghost part_done = { λ done. done.done.part };

    ghost fits = { IsRightWork L.lang };

    ghost answers = { IsRightDone L.lang };

    ghost was_stopped = { λ job. Unit {0} };

    ghost questions = { λ job. questions_by L.lang L.questions job.job };

    fn claim<R: Wait>(
        &self,
        rt: &R,
        lock: &Shared<Locked<L, P>>,
        pass: &mut Pass<Locked<L, P>>,
        who: u32,
    ) -> Claim<SessionJob<L::State>> {
        list_law::<L>();
        holders_law::<L>();
        works_law::<L>();
        reader_law::<L>();
        handed_law::<L>();
        let turn = ClaimTurn {
            alloc: self.alloc,
            lang: self.lang,
            who,
        };
        match lock.turn(rt, pass, turn) {
            Claiming::Job { job, flag } => Claim::Job { job, flag },
            Claiming::Nothing => Claim::Nothing,
            Claiming::Ended => Claim::Ended,
            Claiming::Lost => Claim::Lost,
            Claiming::NoMemory => Claim::NoMemory,
        }
    }

    fn finish<R: Wait>(
        &self,
        rt: &R,
        lock: &Shared<Locked<L, P>>,
        pass: &mut Pass<Locked<L, P>>,
        who: u32,
        done: SessionDone<L::State>,
    ) -> Finish {
        holders_law::<L>();
        match lock.turn(rt, pass, FinishTurn { who, done }) {
            SessionFinish::Finished => Finish::Finished,
            SessionFinish::Dropped => Finish::Dropped,
        }
    }

    fn give_up<R: Wait>(
        &self,
        rt: &R,
        lock: &Shared<Locked<L, P>>,
        pass: &mut Pass<Locked<L, P>>,
        who: u32,
        job: SessionJob<L::State>,
    ) -> GiveUp<SessionJob<L::State>> {
        holders_law::<L>();
        match lock.turn(rt, pass, GiveUpTurn { who, job }) {
            SessionGiveUp::Dropped => GiveUp::Dropped,
            SessionGiveUp::GoOn(job) => GiveUp::GoOn(job),
        }
    }

    fn ended<R: Wait>(
        &self,
        rt: &R,
        lock: &Shared<Locked<L, P>>,
        pass: &mut Pass<Locked<L, P>>,
    ) -> bool {
        look(rt, lock, pass)
    }

    fn part(&self, job: &SessionJob<L::State>) -> Part {
        job.part()
    }

    fn run<S: Stop>(
        &self,
        alloc: Global,
        job: SessionJob<L::State>,
        stop: &mut S,
    ) -> Ran<SessionJob<L::State>, SessionDone<L::State>> {
        works_law::<L>();
        match job.run(alloc, self.lang, stop) {
            SessionRan::Done(done) => Ran::Done(done),
            SessionRan::Stopped(job) => Ran::Stopped(job),
            SessionRan::NoMemory(job) => Ran::NoMemory(job),
        }
    }
}
