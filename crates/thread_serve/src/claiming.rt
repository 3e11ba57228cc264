//! How a worker claims a part.
ghost use Rattle.std.specs.Prelude.{◌≤◌, reverse};
ghost use Rattle.hist_lock.specs.Entries.{Grows};
ghost use Rattle.document_session.specs.Answers.{ClaimedSo};
ghost use Rattle.view_laws.specs.Callers.{service_of, worker_count};
ghost use Rattle.view_laws.specs.Histories.{IsLegalLog};
ghost use Rattle.thread_serve.specs.Working.{ClaimsSo};

use crate::locked::Locked;
use document_session::Claim;
use document_session::session_replies_below::SessionJob;
use hist_lock::Turn;
use language::Language;
use pide_base::Flag;
use reply_outbox::Past;
use session_rules::{Entry, Service};
use std::alloc::Global;
use view_laws::list_law;

/// What a claim gave.
#[derive(Drop)]
pub enum Claiming<S> {
    /// The job of the first ready part, which the worker now holds, and the flag that asks it to
    /// stop.
    Job { job: SessionJob<S>, flag: Flag },
    /// Nothing is ready, or the worker holds a part.
    Nothing,
    /// All has ended.
    Ended,
    /// The sink is lost.
    Lost,
    /// There was not enough memory, or the caller is no worker. Nothing was claimed.
    NoMemory,
}

impl<S> Claiming<S> {
    /// The job that was claimed.
    fn job(&self) -> Option<&SessionJob<S>> {
        match self {
            Claiming::Job { job, .. } => Some(job),
            _ => None,
        }
    }
}

impl<L: Language, P: Past<Service, Entry> + Drop> Locked<L, P> {
    /// The reader or a worker claims the first ready part.
    pub(crate) fn try_claim(&mut self, alloc: Global, lang: &L, who: u32) -> Claim<L::State>
        requires who { who ≤ worker_count self.old.log }
        ensures claimed { ClaimedSo L.lang (service_of self.old.log) who (reverse self.old.log)
            result (reverse self.new.log) }
        ensures adds { Grows self.old.log self.new.log }
        ensures legal { IsLegalLog L.lang self.new.log }
    {
        list_law::<L>();
        self.session.claim(alloc, lang, who)
    }

    /// A worker claims the first ready part, unless all has ended or the sink is lost.
    fn claim(&mut self, alloc: Global, lang: &L, who: u32) -> Claiming<L::State>
        requires legal { IsLegalLog L.lang self.old.log }
        ensures claims { ClaimsSo L.lang who self.old.log result self.new.log }
        ensures adds { Grows self.old.log self.new.log }
        ensures legal { IsLegalLog L.lang self.new.log }
    {
        if self.is_lost() {
            return Claiming::Lost;
        }
        if self.ended() {
            return Claiming::Ended;
        }
        if who > self.workers() {
            return Claiming::NoMemory;
        }
        match self.try_claim(alloc, lang, who) {
            Claim::Job { job, flag } => Claiming::Job { job, flag },
            Claim::Nothing => Claiming::Nothing,
            Claim::NoMemory => Claiming::NoMemory,
        }
    }
}

/// A worker claims the first ready part.
#[derive(Drop)]
pub struct ClaimTurn<'a, L> {
    pub alloc: Global,
    pub lang: &'a L,
    pub who: u32,
}

impl<'a, L: Language, P: Past<Service, Entry> + Drop> Turn<Locked<L, P>> for ClaimTurn<'a, L> {
    type Answer = Claiming<L::State>;

    ghost asks = { λ call old. Unit {0} };

    ghost gives = { λ call old answer new. ClaimsSo L.lang call.who old.log answer new.log };

    fn run(self, state: &mut Locked<L, P>) -> Claiming<L::State> {
        let ClaimTurn { alloc, lang, who } = self;
        let claiming = state.claim(alloc, lang, who);
        state.note_claim(claiming.job());
        claiming
    }
}
