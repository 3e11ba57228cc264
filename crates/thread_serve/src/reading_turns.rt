//! The reader.
ghost use Rattle.std.specs.Prelude.{◌≡◌, [], ◌∷◌, ◌++◌, None};
ghost use mathlib.Core.List.{IsPrefix};
ghost use Rattle.hist_lock.specs.Known.{IsSameCaller};
ghost use Rattle.hist_lock.specs.Passes.{view, IsPassOf};
ghost use Rattle.worker_loop.specs.Held.{held_in};
ghost use Rattle.reply_outbox.specs.declared.item.Item.TheVariants as item;
ghost use Rattle.session_rules.specs.declared.entry.Entry.TheVariants as entry;
ghost use Rattle.view_laws.specs.Says.{says};
ghost use Rattle.thread_serve.specs.Reading.{HasNoEnd, HasTaken};

use crate::crew::Crew;
use crate::locked::Locked;
use crate::looking::EndTurn;
use crate::taking::{TakeTurn, Taking};
use byte_message::Message;
use hist_lock::{Pass, Shared};
use language::Language;
use reply_outbox::Past;
use session_rules::{Entry, Service};
use std::sync::Wait;
use view_laws::{handed_law, holders_law, list_law, owners_law, reader_law, works_law};

impl<'a, L: Language> Crew<'a, L> {
    /// The reader has a message answered at its turn, and claims the first ready part where the
    /// message waits. It holds no part, and has not ended all.
    pub fn take<P: Past<Service, Entry> + Drop, R: Wait>(
        &self,
        rt: &R,
        lock: &Shared<Locked<L, P>>,
        pass: &mut Pass<Locked<L, P>>,
        message: Message,
    ) -> Taking<L::State>
        requires own { IsPassOf lock.now pass.old }
        requires reader { (view pass.old).caller ≡ 0 }
        requires free { held_in says (view pass.old).mine ≡ None }
        requires going { HasNoEnd (view pass.old).mine }
        ensures own { IsPassOf lock.now pass.new }
        ensures same { IsSameCaller (view pass.old) (view pass.new) }
        ensures taken { HasTaken L.lang message (view pass.old) result (view pass.new) }
    {
        list_law::<L>();
        owners_law();
        holders_law::<L>();
        works_law::<L>();
        reader_law::<L>();
        handed_law::<L>();
        let turn = TakeTurn {
            alloc: self.alloc,
            lang: self.lang,
            message,
        };
        lock.turn(rt, pass, turn)
    }

    /// The reader ends all, which it did not before. It takes no memory.
    pub fn end<P: Past<Service, Entry> + Drop, R: Wait>(
        &self,
        rt: &R,
        lock: &Shared<Locked<L, P>>,
        pass: &mut Pass<Locked<L, P>>,
    )
        requires own { IsPassOf lock.now pass.old }
        requires reader { (view pass.old).caller ≡ 0 }
        requires going { HasNoEnd (view pass.old).mine }
        ensures own { IsPassOf lock.now pass.new }
        ensures same { IsSameCaller (view pass.old) (view pass.new) }
        ensures ended { (view pass.new).mine
            ≡ (view pass.old).mine ++ item.Made entry.Ended ∷ [] }
        ensures seen { IsPrefix (view pass.old).seen (view pass.new).seen }
    {
        owners_law();
        reader_law::<L>();
        lock.turn(rt, pass, EndTurn);
    }
}
