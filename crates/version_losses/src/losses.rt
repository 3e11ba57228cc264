//! What was lost by live versions.
ghost use Rattle.std.specs.Prelude.{◌≡◌, ◌+◌, ◌<◌, ◌≤◌, [], ◌∷◌, ◌++◌, OnOk};
ghost use Rattle.version_losses.specs.Losses.{number_of};

use doc_nodes::Shared;
use pide_base::{ExecId, VersionId};
use sqlite_items::Items;
use std::alloc::{AllocError, Global};
use std::marker::Model;

/// A live version: its id, the number of the execution that came next when it was made, and the
/// executions that the live version before it has and neither it nor a later one.
#[derive(Drop)]
pub struct Loss {
    pub id: VersionId,
    pub next: u64,
    pub lost: Shared<Items<ExecId>>,
}

/// The live versions with what was lost by them. Contracts see them, oldest first, and the room:
/// how many more can be pushed without memory.
#[derive(Drop)]
pub struct Losses {
    pub(crate) losses: Vec<Loss>,
}

impl Model for Losses {
    ghost use Rattle.std.specs.Prelude.{◌-◌, vec_len, vec_capacity};
    ghost use Rattle.version_losses.specs.Losses.{Line};

    ghost Value = { Line };

    ghost view = { λ l. record {
      losses = l.losses.items;
      room = vec_capacity l.losses - vec_len l.losses;
    } };
}

impl Losses {
    /// None, which takes no memory.
    pub fn new(alloc: Global) -> Losses
        ensures { result.losses ≡ [] }
    {
        Losses {
            losses: Vec::new(alloc),
        }
    }

    /// Makes room for so many more.
    pub fn reserve(&mut self, count: usize) -> Result<(), AllocError>
        ensures losses { self.new.losses ≡ self.old.losses }
        ensures ok { OnOk result (count ≤ self.new.room) }
    {
        self.losses.reserve(count)
    }

    /// The number that came next when the version was made: None where it is none of these.
    pub fn number(&self, id: VersionId) -> Option<u64>
        ensures { result ≡ number_of self.now.losses id }
    {
        match self.losses.iter().find(|loss| loss.id == id) {
            Some(loss) => Some(loss.next),
            None => None,
        }
    }

    /// Adds a version as the newest, in room that was made. It takes no memory.
    pub fn push(&mut self, loss: Loss)
        requires room { 0 < self.old.room }
        ensures losses { self.new.losses ≡ self.old.losses ++ loss ∷ [] }
        ensures room { self.old.room ≤ self.new.room + 1 }
    {
        if self.losses.push(loss).is_err() {
            unreachable!()
        }
    }
}
