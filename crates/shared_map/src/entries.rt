ghost use Rattle.std.specs.Prelude.{length};
ghost use Rattle.std.specs.Iterator.{YieldsFirstBy, item_count};
ghost use Rattle.shared_map.specs.Lent.{lent};

use crate::tree::Tree;
use std::marker::Model;

/// Pairs of a map in the order of their keys, lent. Contracts see it as the list of those that are
/// left. Each step takes time logarithmic in the size of the map, and no memory.
#[derive(Drop)]
pub struct Entries<'a, K, V> {
    pub(crate) pairs: &'a Tree<(K, V)>,
    pub(crate) from: usize,
    pub(crate) to: usize,
}

impl<'a, K, V> Model for Entries<'a, K, V> {
    ghost use Rattle.std.specs.Prelude.{◌-◌, ◌≤◌, List, length, take, drop};

    ghost Value = { List (K × V) };

    ghost view = { λ entries.
        take (entries.to - entries.from) (drop entries.from entries.pairs.now) };

    ghost invariant = { λ entries. entries.to ≤ length entries.pairs.now };
}

impl<'a, K: Drop, V: Drop> Iterator for Entries<'a, K, V> {
    type Item = (&'a K, &'a V);

    ghost next_gives = { YieldsFirstBy lent (λ rest. rest) };

    ghost remaining = { item_count (λ rest. rest) };

    fn next(&mut self) -> Option<(&'a K, &'a V)> {
        if self.from >= self.to {
            return None;
        }
        let Some((key, value)) = self.pairs.get(self.from) else {
            unreachable!()
        };
        self.from += 1;
        Some((key, value))
    }
}
