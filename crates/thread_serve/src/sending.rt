//! What the writer is handed.
ghost use Rattle.std.specs.Prelude.{◌≡◌, ◌+◌, [], ◌∷◌, ◌++◌, reverse, false, IfSome, IfNone};
ghost use Rattle.hist_lock.specs.Entries.{Grows};
ghost use Rattle.reply_outbox.specs.declared.item.Item.TheVariants as item;
ghost use Rattle.reply_outbox.specs.Items.{is_lost};
ghost use Rattle.view_laws.specs.Callers.{worker_count};
ghost use Rattle.view_laws.specs.Histories.{IsLegalLog};
ghost use Rattle.thread_serve.specs.Sending.{FindsNone, SendsSo, TakesPiece};

use crate::listening::news_of_sending;
use crate::locked::Locked;
use hist_lock::{News, Turn};
use language::Language;
use reply_outbox::Past;
use session_rules::{Entry, Service};
use view_laws::list_law;

/// What a caller is handed.
#[derive(Drop)]
pub enum Sending {
    /// The bytes of the reply that waited longest.
    Piece(Vec<u8>),
    /// No reply waits, or the sink is lost.
    Nothing,
    /// All has ended, and no reply waits or the sink is lost.
    Ended,
    /// The caller is not the writer, and all has not ended.
    NotWriter,
}

impl<L: Language, P: Past<Service, Entry> + Drop> Locked<L, P> {
    /// The reply that waited longest, which the writer takes. None where none waits or the sink is
    /// lost.
    fn take_piece(&mut self) -> Option<Vec<u8>>
        ensures some { IfSome result (λ piece. TakesPiece L.lang self.old.log piece.items
            self.new.log) }
        ensures none { IfNone result (FindsNone L.lang self.old.log self.new.log) }
        ensures adds { Grows self.old.log self.new.log }
        ensures legal { IsLegalLog L.lang self.new.log }
    {
        list_law::<L>();
        self.session.sent()
    }

    /// The writer takes the reply that waited longest. It takes no memory.
    fn send(&mut self, who: u32) -> Sending
        requires legal { IsLegalLog L.lang self.old.log }
        ensures sends { SendsSo L.lang who self.old.log result self.new.log }
        ensures adds { Grows self.old.log self.new.log }
        ensures legal { IsLegalLog L.lang self.new.log }
    {
        if !self.is_writer(who) {
            return if self.ended() {
                Sending::Ended
            } else {
                Sending::NotWriter
            };
        }
        if let Some(piece) = self.take_piece() {
            return Sending::Piece(piece);
        }
        if self.ended() {
            Sending::Ended
        } else {
            Sending::Nothing
        }
    }

    /// The writer tells that it lost the sink. It takes no memory.
    fn lose(&mut self)
        requires going { is_lost (reverse self.old.log) ≡ false }
        ensures log { self.new.log ≡ self.old.log
            ++ item.Lost (worker_count self.old.log + 1) ∷ [] }
        ensures adds { Grows self.old.log self.new.log }
        ensures legal { IsLegalLog L.lang self.new.log }
    {
        list_law::<L>();
        self.session.lose();
    }
}

/// The writer takes the reply that waited longest. It takes no memory.
#[derive(Drop)]
pub struct SendTurn {
    pub who: u32,
}

impl<L: Language, P: Past<Service, Entry> + Drop> Turn<Locked<L, P>> for SendTurn {
    type Answer = Sending;

    ghost asks = { λ call old. Unit {0} };

    ghost gives = { λ call old answer new. SendsSo L.lang call.who old.log answer new.log };

    fn run(self, state: &mut Locked<L, P>) -> Sending {
        let was_backed_up = state.is_backed_up();
        let sending = state.send(self.who);
        let makes_room = was_backed_up && !state.is_backed_up();
        state.note(news_of_sending(makes_room));
        sending
    }
}

/// The writer tells that it lost the sink, which was not lost. It takes no memory.
#[derive(Drop)]
pub struct LoseTurn;

impl<L: Language, P: Past<Service, Entry> + Drop> Turn<Locked<L, P>> for LoseTurn {
    type Answer = ();

    ghost asks = { λ call old. is_lost (reverse old.log) ≡ false };

    ghost gives = { λ call old answer new. new.log
        ≡ old.log ++ item.Lost (worker_count old.log + 1) ∷ [] };

    fn run(self, state: &mut Locked<L, P>) {
        state.note(News::for_all());
        state.lose();
    }
}
