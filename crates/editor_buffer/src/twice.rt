//! Items that name one node.
ghost use Rattle.std.specs.Prelude.{◌≡◌, IfOk};
ghost use Rattle.buffer_rules.specs.Updates.{names_twice};

use message_values::Item;
use shared_map::SharedMap;
use std::alloc::{AllocError, Global};

/// Whether two of the items name one node.
pub fn names_twice(alloc: Global, items: &[Item]) -> Result<bool, AllocError>
    ensures { IfOk result (λ twice. twice ≡ names_twice items.now) }
{
    let mut later = SharedMap::new();
    let mut at = items.len();
    'back: while at > 0 {
        let item = &items[at - 1];
        if later.get(&item.node).is_some() {
            return Ok(true);
        }
        later.set(alloc, item.node.clone()?, ())?;
        at -= 1;
    }
    Ok(false)
}
