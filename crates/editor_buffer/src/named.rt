//! Maps by the names of nodes.
ghost use Rattle.std.specs.Prelude.{◌≡◌, IfOk};
ghost use Rattle.shared_map.specs.Pairs.{IsSorted};
ghost use Rattle.shared_map.specs.Changes.{put};
ghost use Rattle.doc_nodes.specs.Names.{in_order};

use pide_base::NodeName;
use shared_map::SharedMap;
use std::alloc::{AllocError, Global};

/// The map with this value at the name.
pub fn with_named<T: Drop>(
    alloc: Global,
    map: SharedMap<NodeName, T>,
    name: &NodeName,
    value: T,
) -> Result<SharedMap<NodeName, T>, AllocError>
    ensures map { IfOk result (λ after. after ≡ put in_order (name.now, value) map) }
    ensures sorted { IfOk result (λ after. IsSorted in_order after) }
{
    let mut map = map;
    map.set(alloc, name.clone()?, value)?;
    Ok(map)
}
