//! Whether all has ended or the sink is lost, and how the reader ends all.
ghost use Rattle.std.specs.Prelude.{◌≡◌, [], ◌∷◌, ◌++◌, reverse};
ghost use Rattle.hist_lock.specs.Entries.{Grows};
ghost use Rattle.core_rules.specs.Standing.{has_ended};
ghost use Rattle.reply_outbox.specs.declared.item.Item.TheVariants as item;
ghost use Rattle.reply_outbox.specs.Items.{is_lost};
ghost use Rattle.session_rules.specs.declared.entry.Entry.TheVariants as entry;
ghost use Rattle.view_laws.specs.Histories.{IsLegalLog, session_after};
ghost use Rattle.thread_serve.specs.Ends.{IsGoing};

use crate::locked::Locked;
use hist_lock::{News, Turn};
use language::Language;
use reply_outbox::Past;
use session_rules::{Entry, Service};
use view_laws::list_law;

impl<L: Language, P: Past<Service, Entry> + Drop> Locked<L, P> {
    /// Whether all has ended.
    pub(crate) fn ended(&self) -> bool
        ensures { result ≡ has_ended (session_after L.lang self.now.log).events }
    {
        self.session.ended()
    }

    /// Whether the sink is lost.
    pub(crate) fn is_lost(&self) -> bool
        ensures { result ≡ is_lost (reverse self.now.log) }
    {
        self.session.is_lost()
    }

    /// Ends all: no message and no claim comes any more. It takes no memory.
    fn end(&mut self)
        requires going { IsGoing L.lang self.old.log }
        ensures log { self.new.log ≡ self.old.log ++ item.Made entry.Ended ∷ [] }
        ensures adds { Grows self.old.log self.new.log }
        ensures legal { IsLegalLog L.lang self.new.log }
    {
        list_law::<L>();
        self.session.end();
    }
}

/// A caller looks whether all has ended.
#[derive(Drop)]
pub struct LookTurn;

impl<L: Language, P: Past<Service, Entry> + Drop> Turn<Locked<L, P>> for LookTurn {
    type Answer = bool;

    ghost asks = { λ call old. Unit {0} };

    ghost gives = { λ call old answer new. (new.log ≡ old.log)
        × (answer ≡ has_ended (session_after L.lang old.log).events) };

    fn run(self, state: &mut Locked<L, P>) -> bool {
        state.ended()
    }
}

/// The reader ends all, which has not ended: no message and no claim comes any more. It takes no
/// memory.
#[derive(Drop)]
pub struct EndTurn;

impl<L: Language, P: Past<Service, Entry> + Drop> Turn<Locked<L, P>> for EndTurn {
    type Answer = ();

    ghost asks = { λ call old. IsGoing L.lang old.log };

    ghost gives = { λ call old answer new. new.log ≡ old.log ++ item.Made entry.Ended ∷ [] };

    fn run(self, state: &mut Locked<L, P>) {
        state.note(News::for_all());
        state.end();
    }
}
