//! The aliases that are in force in the nodes of a version.
ghost use Rattle.std.specs.Prelude.{◌≡◌, [], IfOk};
ghost use Rattle.pide_mirror.specs.InForce.{AreInForce};

use doc_nodes::{ImportGraph, NodeAliases, Nodes, Shared, aliases_of};
use sqlite_items::Items;
use std::alloc::{AllocError, Global};

/// The aliases of each node, in the order of names.
pub type AllAliases = Shared<Items<NodeAliases>>;

/// The aliases of each of these nodes.
pub(crate) fn all_aliases(alloc: Global, nodes: &Nodes) -> Result<AllAliases, AllocError>
    ensures { IfOk result (λ aliases. AreInForce nodes.now aliases) }
{
    let graph = ImportGraph::of(alloc, nodes)?;
    let aliases = aliases_of(alloc, nodes, &graph);
    drop(graph);
    shared(alloc, aliases?)
}

/// These in memory that versions share.
fn shared(alloc: Global, aliases: Vec<NodeAliases>) -> Result<AllAliases, AllocError>
    ensures { IfOk result (λ shared. shared ≡ aliases.items) }
{
    match Shared::new(alloc, Items::from_vec(aliases)) {
        Ok(aliases) => Ok(aliases),
        Err(aliases) => {
            drop(aliases);
            Err(AllocError)
        }
    }
}

/// No aliases, for no nodes.
pub(crate) fn no_aliases(alloc: Global) -> Result<AllAliases, AllocError>
    ensures { IfOk result (λ aliases. AreInForce [] aliases) }
{
    shared(alloc, Vec::new(alloc))
}
