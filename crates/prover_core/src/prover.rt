//! The core as a value.
ghost use Rattle.std.specs.Prelude.{◌≡◌, [], ◌∷◌, false, IfOk};
ghost use Rattle.core_rules.specs.declared.event.Event.TheVariants as event;
ghost use Rattle.core_rules.specs.Standing.{has_ended};
ghost use Rattle.core_rules.specs.Legal.{IsLegal};

use crate::planning::shared_version;
use crate::table::Table;
use core_jobs::Done;
use core_rules::Event;
use core_tables::{Execs, TaskQueue, Versions};
use doc_nodes::Nodes;
use exec_rules::{Blobs, Version};
use language::Language;
use past_items::GhostList;
use pide_base::{ExecId, Part};
use sqlite_items::Items;
use std::alloc::{AllocError, Global};
use std::collections::HashMap;
use std::marker::Model;
use update_plans::Known;
use version_losses::Losses;

/// The document of the prover's side. Contracts see all that has happened, the newest event first,
/// and the room for an update that was planned.
#[derive(Drop)]
pub struct Core<L: Language> {
    pub(crate) alloc: Global,
    pub(crate) past: GhostList<Event>,
    pub(crate) versions: Versions<Version>,
    /// What live versions had and later ones have not.
    pub(crate) losses: Losses,
    /// The number of the next execution.
    pub(crate) next: u64,
    pub(crate) execs: Execs<Done<L::State>>,
    pub(crate) known: Table<Known>,
    pub(crate) holders: Table<Part>,
    pub(crate) queue: TaskQueue,
    pub(crate) ended: bool,
    /// What the tip assigns and was cancelled since it was made, in that order. There is room for
    /// all that has a task, so that cancelling takes no memory.
    pub(crate) cancelled: Vec<ExecId>,
}

impl<L: Language> Model for Core<L> {
    ghost use Rattle.std.specs.Option.{option_map};
    ghost use Rattle.std.specs.Prelude.{◌-◌, min, length, vec_len, vec_capacity};
    ghost use Rattle.std.specs.HashMap.{hash_map_len, spare};
    ghost use Rattle.core_tables.specs.Rows.{execution_of};
    ghost use Rattle.core_tables.specs.Tasks.{standing};
    ghost use Rattle.prover_core.specs.Looked.{looked};
    ghost use Rattle.prover_core.specs.States.{CoreState, Room};
    ghost use Rattle.prover_core.specs.Kept.{Tables, IsKept};

    ghost Value = { CoreState };

    ghost view = { λ c. record {
      past = c.past;
      room = record {
        versions = min c.versions.room c.losses.room;
        executions = min (min c.execs.room (spare c.known))
            (vec_capacity c.cancelled - length c.queue.tasks);
        tasks = c.queue.room - hash_map_len c.holders;
        links = c.queue.links;
      };
    } };

    ghost invariant = { λ c. IsKept L.lang c.past (record {
      versions = c.versions;
      losses = c.losses.losses;
      next = c.next;
      rows = λ e. execution_of c.execs.rows e;
      homes = λ e. option_map (λ k. k.home) (looked c.known e);
      holders = λ who. looked c.holders who;
      holding = hash_map_len c.holders;
      tasks = λ e. standing c.queue e;
      room = c.queue.room;
      count = length c.queue.tasks;
      ended = c.ended;
      cancelled = c.cancelled.items;
      spare = vec_capacity c.cancelled - vec_len c.cancelled;
    }) };
}

impl<L: Language> Core<L> {
    /// The document before any event.
    pub fn new(alloc: Global) -> Result<Core<L>, AllocError>
        ensures { IfOk result (λ core. core.past ≡ []) }
    {
        let start = Version {
            nodes: Nodes::new(),
            blobs: Blobs::new(),
            assigned: Items::new(alloc),
        };
        let start = shared_version(alloc, start)?;
        Ok(Core {
            alloc,
            past: GhostList::new(),
            versions: Versions::new(alloc, start),
            losses: Losses::new(alloc),
            next: 1,
            execs: Execs::new(alloc),
            known: HashMap::new(alloc),
            holders: HashMap::new(alloc),
            queue: TaskQueue::new(alloc),
            ended: false,
            cancelled: Vec::new(alloc),
        })
    }

    /// Ends it: nothing is taken any more. It takes no memory.
    pub fn end(&mut self)
        requires going { has_ended self.old.past ≡ false }
        ensures past { self.new.past ≡ event.Ended ∷ self.old.past }
        ensures legal { IsLegal L.lang self.new.past }
    {
        self.ended = true;
        self.past.add(Event::Ended);
    }

    /// Whether it has ended.
    pub fn ended(&self) -> bool
        ensures { result ≡ has_ended self.now.past }
    {
        self.ended
    }
}
