//! How a worker ends the part that it holds.
ghost use Rattle.std.specs.Prelude.{◌≡◌, ◌≤◌, reverse, Some};
ghost use Rattle.hist_lock.specs.Entries.{Grows};
ghost use Rattle.core_rules.specs.Standing.{held};
ghost use Rattle.document_session.specs.keeping_rules_below.Works.{IsDoneWorkOf};
ghost use Rattle.document_session.specs.Answers.{FinishedSo, GivenUpSo};
ghost use Rattle.view_laws.specs.Callers.{service_of, worker_count};
ghost use Rattle.view_laws.specs.Histories.{IsLegalLog, session_after};

use crate::locked::Locked;
use document_session::session_replies_below::{SessionDone, SessionJob};
use document_session::{Finish, GiveUp};
use hist_lock::Turn;
use language::Language;
use reply_outbox::Past;
use session_rules::{Entry, Service};
use view_laws::list_law;

impl<L: Language, P: Past<Service, Entry> + Drop> Locked<L, P> {
    /// A worker hands in what came of the part that it holds. It takes no memory.
    fn finish(&mut self, who: u32, done: SessionDone<L::State>) -> Finish
        requires who { who ≤ worker_count self.old.log }
        requires done { IsDoneWorkOf L.lang (session_after L.lang self.old.log) who done }
        ensures finished { FinishedSo L.lang (service_of self.old.log) who done.done.part
            (reverse self.old.log) result (reverse self.new.log) }
        ensures adds { Grows self.old.log self.new.log }
        ensures legal { IsLegalLog L.lang self.new.log }
    {
        list_law::<L>();
        self.session.finish(who, done)
    }

    /// A worker gives up the part that it holds, unless that is still wanted. It takes no memory.
    fn give_up(&mut self, who: u32, job: SessionJob<L::State>) -> GiveUp<L::State>
        requires who { who ≤ worker_count self.old.log }
        requires holds { held (session_after L.lang self.old.log).events who ≡ Some job.job.part }
        ensures given_up { GivenUpSo L.lang (service_of self.old.log) who job
            (reverse self.old.log) result (reverse self.new.log) }
        ensures adds { Grows self.old.log self.new.log }
        ensures legal { IsLegalLog L.lang self.new.log }
    {
        list_law::<L>();
        self.session.give_up(who, job)
    }
}

/// A worker hands in what came of the part that it holds.
#[derive(Drop)]
pub struct FinishTurn<S> {
    pub who: u32,
    pub done: SessionDone<S>,
}

impl<L: Language, P: Past<Service, Entry> + Drop> Turn<Locked<L, P>> for FinishTurn<L::State> {
    type Answer = Finish;

    ghost asks = { λ call old. (call.who ≤ worker_count old.log)
        × IsDoneWorkOf L.lang (session_after L.lang old.log) call.who call.done };

    ghost gives = { λ call old answer new. FinishedSo L.lang (service_of old.log) call.who
        call.done.done.part (reverse old.log) answer (reverse new.log) };

    fn run(self, state: &mut Locked<L, P>) -> Finish {
        let FinishTurn { who, done } = self;
        let finish = state.finish(who, done);
        state.note_end(true);
        finish
    }
}

/// A worker gives up the part that it holds, unless that is still wanted.
#[derive(Drop)]
pub struct GiveUpTurn<S> {
    pub who: u32,
    pub job: SessionJob<S>,
}

impl<L: Language, P: Past<Service, Entry> + Drop> Turn<Locked<L, P>> for GiveUpTurn<L::State> {
    type Answer = GiveUp<L::State>;

    ghost asks = { λ call old. (call.who ≤ worker_count old.log)
        × (held (session_after L.lang old.log).events call.who ≡ Some call.job.job.part) };

    ghost gives = { λ call old answer new. GivenUpSo L.lang (service_of old.log) call.who call.job
        (reverse old.log) answer (reverse new.log) };

    fn run(self, state: &mut Locked<L, P>) -> GiveUp<L::State> {
        let GiveUpTurn { who, job } = self;
        let given_up = state.give_up(who, job);
        state.note_end(matches!(given_up, GiveUp::Dropped));
        given_up
    }
}
