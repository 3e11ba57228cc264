//! What a list of what has happened offers.
ghost use Rattle.std.specs.Prelude.{◌≡◌, ◌+◌, ◌<◌, ◌≤◌, ◌∷◌, List, ℕ, OnOk, length};
ghost use Rattle.reply_outbox.specs.declared.item.Item.{Item};

use crate::item::Item;
use std::alloc::AllocError;

/// What has happened so far, as a list with the newest item first, and the room for more of it.
pub trait Past<O, E>: Sized {
    /// The items so far, newest first.
    ghost items: { Self → List (Item O E) };

    /// How many items can be added without memory.
    ghost room: { Self → ℕ };

    /// Makes room for so many items. For want of memory, or where there would be more items than a
    /// `u64` counts, nothing has changed but the room, which never falls.
    fn reserve(&mut self, more: usize) -> Result<(), AllocError>
        ensures items { items self.new ≡ items self.old }
        ensures room { room self.old ≤ room self.new }
        ensures ok { OnOk result (more ≤ room self.new) };

    /// Adds an item, for which there is room.
    fn add(&mut self, item: Item<O, E>)
        requires { 0 < room self.old }
        ensures items { items self.new ≡ item ∷ items self.old }
        ensures room { room self.old ≤ room self.new + 1 };

    /// How many items there are.
    fn count(&self) -> u64
        ensures { result ≡ length (items self.now) };
}
