ghost use Rattle.std.specs.Iterator.{YieldsFirstRef, item_count};

use crate::tree::Tree;
use std::marker::Model;

/// Items of a list, lent. Contracts see it as the list of those that are left. Each step takes time
/// logarithmic in the length of the list, and no memory.
#[derive(Drop)]
pub struct ListItems<'a, T> {
    pub(crate) tree: &'a Tree<T>,
    pub(crate) from: usize,
}

impl<'a, T> Model for ListItems<'a, T> {
    ghost use Rattle.std.specs.Prelude.{List, drop};

    ghost Value = { List T };

    ghost view = { λ items. drop items.from items.tree.now };
}

impl<'a, T: Drop> Iterator for ListItems<'a, T> {
    type Item = &'a T;

    ghost next_gives = { YieldsFirstRef (λ rest. rest) };

    ghost remaining = { item_count (λ rest. rest) };

    fn next(&mut self) -> Option<&'a T> {
        if self.from >= self.tree.len() {
            return None;
        }
        let Some(item) = self.tree.get(self.from) else {
            unreachable!()
        };
        self.from += 1;
        Some(item)
    }
}
