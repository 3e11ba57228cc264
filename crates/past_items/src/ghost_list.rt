//! A list for proofs alone.
ghost use Rattle.std.specs.Prelude.{◌≡◌, [], ◌∷◌};

use http_server::Log;
use std::marker::Model;

/// A list of which nothing is kept: it takes no memory, and proofs alone can read it. Contracts see
/// the list, newest first.
#[derive(Drop)]
pub struct GhostList<T> {
    log: Log<T, ()>,
}

impl<T> Model for GhostList<T> {
    ghost use Rattle.std.specs.Prelude.{List, reverse, map};

    ghost Value = { List T };

    ghost view = { λ l. reverse (map (λ x. x.0) l.log.items) };
}

impl<T> GhostList<T> {
    /// Nothing yet.
    pub fn new() -> GhostList<T>
        ensures { result ≡ [] }
    {
        GhostList { log: Log::new() }
    }
}

impl<T: Drop> GhostList<T> {
    /// Adds an item.
    pub fn add(&mut self, item: T)
        ensures items { self.new ≡ item ∷ self.old }
    {
        self.log = self.log.and(&item, &());
    }
}
