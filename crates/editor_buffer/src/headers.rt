//! Headers of nodes compared.
ghost use Rattle.std.specs.Prelude.{◌≡◌, ◌↔◌, IsTrue};
ghost use Rattle.shared_map.specs.Changes.{put};
ghost use Rattle.doc_nodes.specs.Names.{in_order};
ghost use Rattle.doc_nodes.specs.Heads.{head, heads};

use crate::open_node::same_names;
use doc_nodes::{Node, Nodes};
use outer_syntax::KeywordPair;
use pide_base::NodeName;

/// Whether both name a command alike, for the same command.
fn same_pair(pair: &KeywordPair, other: &KeywordPair) -> bool
    ensures { IsTrue result ↔ (pair.now ≡ other.now) }
{
    pair.name.as_slice() == other.name.as_slice()
        && pair.target.as_slice() == other.target.as_slice()
}

/// Whether both lists have the same pairs in the same order.
fn same_pairs(pairs: &[KeywordPair], others: &[KeywordPair]) -> bool
    ensures { IsTrue result ↔ (pairs.now ≡ others.now) }
{
    if pairs.len() != others.len() {
        return false;
    }
    for (i, pair) in pairs.iter().enumerate() {
        if !same_pair(pair, &others[i]) {
            return false;
        }
    }
    true
}

/// Whether both nodes have the same imports and keyword pairs.
fn same_header(node: &Node, other: &Node) -> bool
    ensures { IsTrue result ↔ (head node.now ≡ head other.now) }
{
    if !same_names(
        node.imports.get().as_slice(),
        other.imports.get().as_slice(),
    ) {
        return false;
    }
    same_pairs(
        node.keywords.get().as_slice(),
        other.keywords.get().as_slice(),
    )
}

/// Whether all headers stay where this is the node of the name.
pub(crate) fn keeps_headers(nodes: &Nodes, name: &NodeName, made: &Node) -> bool
    ensures { IsTrue result
        ↔ (heads (put in_order (name.now, made.now) nodes.now) ≡ heads nodes.now) }
{
    let _sorted = nodes.iter();
    match nodes.get(name) {
        Some(node) => same_header(node, made),
        None => false,
    }
}
