//! A list of which the length alone is kept.
ghost use Rattle.std.specs.Prelude.{◌≡◌, ◌+◌, ◌^◌, ◌-◌, ◌<◌, ◌≤◌, [], ◌∷◌, length};

use crate::item::Item;
use crate::past::Past;
use past_items::GhostList;
use std::alloc::AllocError;
use std::marker::Model;

/// What has happened, of which the number of items alone is kept: it takes no memory, and has room
/// for as many items as a `u64` counts. Contracts see the list, newest first.
#[derive(Drop)]
pub struct Unkept<O, E> {
    list: GhostList<Item<O, E>>,
    count: u64,
}

impl<O, E> Model for Unkept<O, E> {
    ghost use Rattle.std.specs.Prelude.{◌≡◌, List, length};
    ghost use Rattle.reply_outbox.specs.declared.item.Item.{Item};

    ghost Value = { List (Item O E) };

    ghost view = { λ u. u.list };

    ghost invariant = { λ u. u.count ≡ length u.list };
}

impl<O, E> Unkept<O, E> {
    /// Nothing yet.
    pub fn new() -> Unkept<O, E>
        ensures { result ≡ [] }
    {
        Unkept {
            list: GhostList::new(),
            count: 0,
        }
    }
}

impl<O: Drop, E: Drop> Past<O, E> for Unkept<O, E> {
    ghost items = { λ u. u };

    ghost room = { λ u. 2 ^ 64 - 1 - length u };

    fn reserve(&mut self, more: usize) -> Result<(), AllocError> {
        if more as u64 <= u64::MAX - self.count {
            Ok(())
        } else {
            Err(AllocError)
        }
    }

    fn add(&mut self, item: Item<O, E>)
        requires { length self.old < 2 ^ 64 - 1 }
        ensures items { self.new ≡ item ∷ self.old }
        ensures room { 2 ^ 64 - 1 - length self.old ≤ 2 ^ 64 - 1 - length self.new + 1 }
    {
        self.list.add(item);
        self.count += 1;
    }

    fn count(&self) -> u64 {
        self.count
    }
}
