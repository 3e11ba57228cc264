//! Nodes by names that imports spell.
ghost use Rattle.std.specs.Prelude.{◌≡◌, None, IfSome, IfNone};
ghost use Rattle.doc_nodes.specs.Imports.{place_of};

use doc_nodes::{Called, Nodes};
use pide_base::NodeName;

/// The name of the node that is called so.
pub(crate) fn node_called<'a>(nodes: &'a Nodes, name: &[char]) -> Option<&'a NodeName>
    ensures some { IfSome result (λ node. node.now ≡ name.now) }
    ensures none { IfNone result (place_of nodes.now name.now ≡ None) }
{
    match nodes.first_in(&Called { name }) {
        Some((node, _)) => Some(node),
        None => None,
    }
}
