//! The state in which a node begins.
ghost use Rattle.std.specs.Prelude.{◌≡◌, ◌<◌, ℕ, List, length, slice_get, Some, IfOk};
ghost use Rattle.doc_nodes.specs.declared.node.Node.{Node};
ghost use Rattle.doc_nodes.specs.Graphs.{IsGraphOf};
ghost use Rattle.doc_nodes.specs.Aliases.{aliases_at};
ghost use Rattle.core_rules.specs.Scratch.{Runs, begins_at};
ghost use Rattle.pide_build.specs.Handed.{AreBehind};

use crate::imports::imports_of;
use doc_nodes::{ImportGraph, NodeAliases, Nodes, Shared};
use language::Language;
use std::alloc::{AllocError, Global};

/// What stands when a node begins: all nodes, how they import one another, the aliases of each by
/// its place, and by its place the state behind each that is done.
#[derive(Drop)]
pub struct Before<'a, S> {
    pub nodes: &'a Nodes,
    pub graph: &'a ImportGraph,
    pub aliases: &'a [NodeAliases],
    pub behind: &'a [Option<Shared<S>>],
}

/// The state in which the node at a place begins, when these nodes were done before it.
pub fn begin<L: Language>(
    alloc: Global,
    language: &L,
    before: &Before<'_, L::State>,
    place: usize,
) -> Result<L::State, AllocError>
    requires graph { IsGraphOf before.now.nodes.now before.now.graph.now }
    requires aliases { (p : ℕ) → p < length before.now.nodes.now
        → slice_get before.now.aliases.now p ≡ Some (aliases_at before.now.nodes.now p) }
    requires place { place < length before.now.nodes.now }
    ensures { (runs : Runs L.State) (pair : List ℕ × Node)
        → AreBehind L.lang runs before.now.behind.now
        → slice_get before.now.nodes.now place ≡ Some pair
        → IfOk result (λ state. state ≡ begins_at L.lang before.now.nodes.now runs place pair) }
{
    let Some((name, node)) = before.nodes.at(place) else {
        unreachable!()
    };
    let Some(aliases) = before.aliases.get(place) else {
        unreachable!()
    };
    let names = node.imports.get().as_slice();
    let aims = before.graph.aims(place);
    let imports = imports_of(alloc, before.graph, before.behind, names, aims)?;
    let state = language.start(alloc, name, &imports, aliases);
    drop(imports);
    state
}
