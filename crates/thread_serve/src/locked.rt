//! A session as a state that callers share.
ghost use Rattle.std.specs.Prelude.{◌≡◌, ◌↔◌, ℕ, ◌+◌, true, reverse};
ghost use Rattle.session_rules.specs.declared.service.Service.TheVariants.{Workers};
ghost use Rattle.document_session.specs.keeping_rules_below.Legal.{AreLegal};
ghost use Rattle.view_laws.specs.Callers.{service_of, whose, worker_count};
ghost use Rattle.view_laws.specs.Histories.{IsLegalLog};
ghost use Rattle.view_laws.specs.Idle.{HasNothingToDo};

use document_session::Session;
use hist_lock::{News, State};
use language::Language;
use reply_outbox::{Item, Past};
use session_rules::{Entry, Service};
use std::marker::Model;
use view_laws::list_law;

/// A session that the reader and workers serve, who take turns at it. Contracts see its items and
/// the replies that wait, the oldest first.
#[derive(Drop)]
pub struct Locked<L: Language, P: Past<Service, Entry>> {
    pub(crate) session: Session<L, P>,
    /// For whom the item is news that came last. No contract speaks of it, nor of what follows.
    pub(crate) news: News,
    /// How many parts are held.
    pub(crate) held: usize,
    /// Whether each of them was claimed behind the last message.
    pub(crate) holds_wanted: bool,
}

impl<L: Language, P: Past<Service, Entry>> Model for Locked<L, P> {
    ghost use Rattle.std.specs.Prelude.{◌≡◌, reverse};
    ghost use Rattle.view_laws.specs.Callers.{service_of};
    ghost use Rattle.thread_serve.specs.Contents.{SharedState};

    ghost Value = { SharedState };

    ghost view = { λ x. record {
      log = reverse x.session.items;
      waiting = x.session.waiting;
    } };

    ghost invariant = { λ x. x.session.service ≡ service_of (reverse x.session.items) };
}

impl<L: Language, P: Past<Service, Entry> + Drop> Locked<L, P> {
    /// A session that so many workers serve, to be shared.
    pub fn new(session: Session<L, P>) -> Locked<L, P>
        requires workers { (count : ℕ) × (session.service ≡ Workers count) }
        requires legal { AreLegal L.lang session.service session.items }
        ensures log { result.log ≡ reverse session.items }
        ensures legal { IsLegalLog L.lang result.log }
        ensures waiting { result.waiting ≡ session.waiting }
    {
        list_law::<L>();
        Locked {
            session,
            news: News::for_all(),
            held: 0,
            holds_wanted: true,
        }
    }

    /// The session.
    pub fn into_session(self) -> Session<L, P>
        ensures items { reverse result.items ≡ self.log }
        ensures service { result.service ≡ service_of self.log }
        ensures waiting { result.waiting ≡ self.waiting }
    {
        self.session
    }

    /// Notes for whom the item is news that comes in this turn.
    pub(crate) fn note(&mut self, news: News)
        ensures { self.new ≡ self.old }
    {
        self.news = news;
    }

    /// How many workers there are.
    pub(crate) fn workers(&self) -> u32
        ensures { result ≡ worker_count self.now.log }
    {
        match self.session.service() {
            Service::Workers { count } => count,
            Service::Script => unreachable!(),
        }
    }

    /// Whether a caller is the writer.
    pub(crate) fn is_writer(&self, who: u32) -> bool
        ensures { (result ≡ true) ↔ (who ≡ worker_count self.now.log + 1) }
    {
        who.checked_sub(1) == Some(self.workers())
    }
}

impl<L: Language, P: Past<Service, Entry> + Drop> State for Locked<L, P> {
    type Entry = Item<Service, Entry>;

    ghost entries = { λ x. x.log };

    ghost whose = { whose };

    ghost legal = { IsLegalLog L.lang };

    ghost idle = { HasNothingToDo L.lang };

    fn count(&self) -> u64 {
        self.session.count()
    }

    fn news(&self) -> News {
        self.news
    }
}
