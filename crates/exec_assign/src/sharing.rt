//! Values in memory that is shared.
ghost use Rattle.std.specs.Prelude.{◌≡◌, IfOk};

use doc_nodes::Shared;
use std::alloc::{AllocError, Global};

/// The value in memory that can be shared. For want of memory it is let go.
pub(crate) fn shared<T: Drop>(alloc: Global, value: T) -> Result<Shared<T>, AllocError>
    ensures { IfOk result (λ shared. shared ≡ value) }
{
    match Shared::new(alloc, value) {
        Ok(shared) => Ok(shared),
        Err(_) => Err(AllocError),
    }
}
