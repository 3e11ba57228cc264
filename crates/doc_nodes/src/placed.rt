//! The order of imports, by names.
ghost use Rattle.std.specs.Prelude.{◌≡◌, find, IfOk};
ghost use Rattle.doc_nodes.specs.Imports.{is_bad, placed_node, import_order};
ghost use Rattle.doc_nodes.specs.Graphs.{IsGraphOf};

use crate::graph::{ImportGraph, place_of};
use crate::node::{Node, Nodes};
use joined_results::both;
use sqlite_items::Items;
use std::alloc::{AllocError, Global};
use text_edits::pide_base_below::NodeName;

/// A node in the order of imports.
#[derive(Debug, Drop)]
pub struct Placed {
    pub node: NodeName,
    /// The first of its imports that is no node, or one that is not ordered: None exactly where the
    /// node is ordered.
    pub bad: Option<Items<char>>,
}

/// All nodes in the order of imports: the ordered ones by rounds, in a round by name; then, by
/// name, the others. A node is ordered when all its imports are nodes that were ordered in earlier
/// rounds.
pub fn import_order(
    alloc: Global,
    nodes: &Nodes,
    graph: &ImportGraph,
) -> Result<Vec<Placed>, AllocError>
    requires { IsGraphOf nodes.now graph.now }
    ensures { IfOk result (λ all. all.items ≡ import_order nodes.now) }
{
    let mut all = Vec::new(alloc);
    'places: for place in graph.order() {
        if let Some((name, node)) = nodes.at(*place) {
            all.push(placed_node(alloc, nodes, graph, name, node)?)?;
        }
    }
    Ok(all)
}

fn placed_node(
    alloc: Global,
    nodes: &Nodes,
    graph: &ImportGraph,
    name: &NodeName,
    node: &Node,
) -> Result<Placed, AllocError>
    requires { IsGraphOf nodes.now graph.now }
    ensures { IfOk result (λ one. one ≡ placed_node nodes.now (name.now, node.now)) }
{
    let bad = first_bad(alloc, nodes, graph, node.imports.get().as_slice());
    let (node, bad) = both(name.clone(), bad)?;
    Ok(Placed { node, bad })
}

fn first_bad(
    alloc: Global,
    nodes: &Nodes,
    graph: &ImportGraph,
    imports: &[Items<char>],
) -> Result<Option<Items<char>>, AllocError>
    requires { IsGraphOf nodes.now graph.now }
    ensures { IfOk result (λ bad. bad ≡ find (is_bad nodes.now) imports.now) }
{
    'imports: for name in imports {
        if is_bad(nodes, graph, name.as_slice()) {
            return Ok(Some(Items::from_slice(alloc, name.as_slice())?));
        }
    }
    Ok(None)
}

/// Whether the import is no node, or one that is not ordered.
fn is_bad(nodes: &Nodes, graph: &ImportGraph, name: &[char]) -> bool
    requires { IsGraphOf nodes.now graph.now }
    ensures { result ≡ is_bad nodes.now name.now }
{
    match place_of(nodes, name) {
        Some(place) => !graph.is_ordered(place),
        None => true,
    }
}
