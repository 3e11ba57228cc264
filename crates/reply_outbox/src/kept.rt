//! A list that keeps its items.
ghost use Rattle.std.specs.Prelude.{◌≡◌, ◌+◌, ◌<◌, ◌≤◌, [], ◌∷◌, reverse};

use crate::item::Item;
use crate::past::Past;
use std::alloc::{AllocError, Global};
use std::marker::Model;

/// What has happened, kept oldest first in a vector. Contracts see its list, newest first, and the
/// room for more.
#[derive(Drop)]
pub struct Kept<O, E> {
    items: Vec<Item<O, E>>,
}

impl<O, E> Model for Kept<O, E> {
    ghost use Rattle.std.specs.Prelude.{ℕ, List, ◌-◌, reverse, vec_len};
    ghost use Rattle.std.specs.Vec.{vec_capacity};
    ghost use Rattle.reply_outbox.specs.declared.item.Item.{Item};

    ghost Value = { List (Item O E) × ℕ };

    ghost view = { λ k. (reverse k.items.items, vec_capacity k.items - vec_len k.items) };
}

impl<O, E> Kept<O, E> {
    /// Nothing yet. It takes no memory.
    pub fn new(alloc: Global) -> Kept<O, E>
        ensures { result.0 ≡ [] }
    {
        Kept {
            items: Vec::new(alloc),
        }
    }

    /// The items, oldest first.
    pub fn as_slice(&self) -> &[Item<O, E>]
        ensures { reverse result.now ≡ self.now.0 }
    {
        self.items.as_slice()
    }

    /// The items, oldest first.
    pub fn into_items(self) -> Vec<Item<O, E>>
        ensures { reverse result.items ≡ self.0 }
    {
        self.items
    }
}

impl<O: Drop, E: Drop> Past<O, E> for Kept<O, E> {
    ghost items = { λ k. k.0 };

    ghost room = { λ k. k.1 };

    fn reserve(&mut self, more: usize) -> Result<(), AllocError> {
        self.items.reserve(more)
    }

    fn add(&mut self, item: Item<O, E>)
        requires { 0 < self.old.1 }
        ensures items { self.new.0 ≡ item ∷ self.old.0 }
        ensures room { self.old.1 ≤ self.new.1 + 1 }
    {
        let added = self.items.push(item).is_ok();
        prove!(added);
    }

    fn count(&self) -> u64 {
        self.items.len() as u64
    }
}
