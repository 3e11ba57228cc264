//! What an update goes by.
ghost use Rattle.std.specs.Prelude.{◌≡◌, ◌==◌, ◌<◌, ℕ, List, true, false, length, slice_get, Some, IsTrue, IfOk};
ghost use Rattle.std.specs.Option.{option_copied};
ghost use Rattle.doc_nodes.specs.Looks.{aims_at, marked};
ghost use Rattle.doc_nodes.specs.declared.node.Node.{Node};
ghost use Rattle.doc_nodes.specs.Imports.{aims};
ghost use Rattle.doc_nodes.specs.Wanted.{wanted_at};
ghost use Rattle.doc_nodes.specs.Graphs.{IsGraphOf};
ghost use Rattle.exec_rules.specs.Assigning.{Update, entries_at, entries_in, assigned_in, rows_in};
ghost use Rattle.exec_assign.specs.Fitting.{RowsFit};
ghost use Rattle.exec_assign.specs.Untouched.{AreUntouched, AreChanged};

use crate::cancelled::Cancelled;
use doc_nodes::{
    BlobName, Entry, ImportGraph, NodeAliases, Nodes, Shared, aliases_of, wanted_counts,
};
use exec_rules::{Assigned, Blobs, Row, Version};
use joined_results::each_of_three;
use pide_base::NodeName;
use shared_map::{Exactly, SharedMap};
use std::alloc::{AllocError, Global};
use std::marker::Model;

/// The names of blobs whose texts differ in two versions: one that is in one of them alone counts.
pub type ChangedBlobs = SharedMap<BlobName, ()>;

/// What an update goes by: the version before it, the nodes and blobs of the new one, and which
/// executions are cancelled. Beside these it keeps what is told of what changed, and what the new
/// nodes' imports come to.
#[derive(Drop)]
pub struct Update<'a, C: Cancelled> {
    pub(crate) tip: &'a Version,
    pub(crate) nodes: &'a Nodes,
    pub(crate) blobs: &'a Blobs,
    pub(crate) cancelled: &'a C,
    pub(crate) changed: &'a ChangedBlobs,
    pub(crate) untouched: &'a [bool],
    pub(crate) graph: ImportGraph,
    pub(crate) wanted: Vec<usize>,
    pub(crate) aliases: Vec<NodeAliases>,
}

impl<'a, C: Cancelled> Model for Update<'a, C> {
    ghost use Rattle.exec_rules.specs.Assigning.{Update};
    ghost use Rattle.exec_assign.specs.Prepared.{IsPrepared};

    ghost Value = { Update };

    ghost view = { λ u. record {
      tip = u.tip.now;
      nodes = u.nodes.now;
      blobs = u.blobs.now;
      cancelled = C.cancelled u.cancelled.now;
    } };

    ghost invariant = { λ u. IsPrepared (record {
      tip = u.tip.now;
      nodes = u.nodes.now;
      blobs = u.blobs.now;
      cancelled = C.cancelled u.cancelled.now;
    }) u.changed.now u.untouched.now u.graph u.wanted.items u.aliases.items };
}

impl<'a, C: Cancelled> Update<'a, C> {
    /// An update of the version to these nodes and blobs. The names of the blobs that changed are
    /// told, so that no text is compared; and by marks, in the order of names, which nodes are
    /// untouched: their commands are those of the version before, and none of the executions that
    /// it has in them is cancelled. A node with no mark may be untouched too.
    pub fn of(
        alloc: Global,
        tip: &'a Version,
        nodes: &'a Nodes,
        blobs: &'a Blobs,
        cancelled: &'a C,
        changed: &'a ChangedBlobs,
        untouched: &'a [bool],
    ) -> Result<Update<'a, C>, AllocError>
        requires changed { AreChanged changed.now tip.now.blobs blobs.now }
        requires untouched { AreUntouched (record {
          tip = tip.now;
          nodes = nodes.now;
          blobs = blobs.now;
          cancelled = C.cancelled cancelled.now;
        }) untouched.now }
        requires rows { RowsFit tip.now }
        ensures { IfOk result (λ update. update ≡ record {
          tip = tip.now;
          nodes = nodes.now;
          blobs = blobs.now;
          cancelled = C.cancelled cancelled.now;
        }) }
    {
        let graph = ImportGraph::of(alloc, nodes)?;
        let wanted = wanted_counts(alloc, nodes, &graph);
        let aliases = aliases_of(alloc, nodes, &graph);
        let (graph, wanted, aliases) = each_of_three(Ok(graph), wanted, aliases)?;
        Ok(Update {
            tip,
            nodes,
            blobs,
            cancelled,
            changed,
            untouched,
            graph,
            wanted,
            aliases,
        })
    }

    /// The imports of the new nodes, by place.
    pub fn graph(&self) -> &ImportGraph
        ensures { IsGraphOf self.now.nodes result.now }
    {
        &self.graph
    }

    /// What the version before assigns to the node of this name.
    pub(crate) fn assigned_before(&self, name: &NodeName) -> Option<&Shared<Assigned>>
        ensures { option_copied result ≡ assigned_in self.now.tip name.now }
    {
        let place = self.tip.nodes.place_in(&Exactly(name))?;
        self.tip.assigned.get(place)
    }

    /// The rows that it has there.
    pub(crate) fn rows_before(&self, name: &NodeName) -> &[Row]
        ensures { result.now ≡ rows_in self.now.tip name.now }
    {
        match self.assigned_before(name) {
            Some(assigned) => assigned.get().rows.as_slice(),
            None => &[],
        }
    }

    /// The commands that it has there.
    pub(crate) fn entries_before(&self, name: &NodeName) -> &[Entry]
        ensures { result.now ≡ entries_in self.now.tip name.now }
    {
        match self.tip.nodes.place_in(&Exactly(name)) {
            Some(place) => entries_at(&self.tip.nodes, place),
            None => &[],
        }
    }

    /// How many commands of the new node at the place are wanted.
    pub(crate) fn wanted(&self, place: usize) -> usize
        requires { place < length self.now.nodes }
        ensures { result ≡ wanted_at self.now.nodes place }
    {
        self.wanted[place]
    }
}

/// The commands of the node at the place.
fn entries_at(nodes: &Nodes, place: usize) -> &[Entry]
    ensures { result.now ≡ entries_at nodes.now place }
{
    match nodes.at(place) {
        Some((_, node)) => node.entries.get().as_slice(),
        None => &[],
    }
}
