//! Updates that are planned.
ghost use Rattle.std.specs.Prelude.{◌≡◌, map};
ghost use Rattle.exec_assign.specs.Told.{told_node};

use core_rules::Event;
use core_tables::Version as SharedVersion;
use doc_nodes::Shared;
use exec_assign::ToldNode;
use exec_rules::Version;
use pide_base::{ExecId, VersionId};
use sqlite_items::Items;
use std::marker::Model;
use update_plans::{Fresh, Sight};

/// An update that is worked out and has its memory, but has not happened. Contracts see the version
/// that it makes, what it assigns, and what it will do to executions and tasks.
#[derive(Drop)]
pub struct Plan {
    pub(crate) id: VersionId,
    pub(crate) version: SharedVersion<Version>,
    /// What is to be told of all that has happened.
    pub(crate) event: Event,
    pub(crate) next: u64,
    /// The new executions, by falling numbers: the first stands last.
    pub(crate) fresh: Vec<Fresh>,
    /// The tip's executions that the version hasn't.
    pub(crate) dropped: Shared<Items<ExecId>>,
    /// The evaluations of nodes that changed.
    pub(crate) sights: Vec<Sight>,
    pub(crate) told: Vec<ToldNode>,
}

impl Model for Plan {
    ghost use Rattle.std.specs.Prelude.{◌≡◌, map, reverse};
    ghost use Rattle.exec_assign.specs.Told.{told_node};
    ghost use Rattle.core_rules.specs.declared.event.Event.TheVariants.{Update};
    ghost use Rattle.prover_core.specs.Plans.{PlanState};

    ghost Value = { PlanState };

    ghost view = { λ p. record {
      version = p.id;
      nodes = p.version.nodes;
      blobs = p.version.blobs;
      assignment = record {
        assigned = p.version.assigned;
        homes = map (λ fresh. fresh.known.home) (reverse p.fresh.items);
        next = p.next;
      };
      tasks = map (λ fresh. fresh.task) (reverse p.fresh.items);
      dropped = p.dropped;
      sights = p.sights.items;
      told = map told_node p.told.items;
    } };

    ghost invariant = { λ p. p.event ≡ Update p.id p.version.nodes p.version.blobs };
}

impl Plan {
    /// The nodes that the update's reply lists: those whose rows differ from the tip's.
    pub fn assigned(&self) -> &[ToldNode]
        ensures { map told_node result.now ≡ self.now.told }
    {
        &self.told
    }
}
