//! Values that are shared.
use doc_nodes::Shared;
use std::alloc::{AllocError, Global};

/// A value that is shared.
pub(crate) fn shared<T: Drop>(alloc: Global, value: T) -> Result<Shared<T>, AllocError> {
    match Shared::new(alloc, value) {
        Ok(shared) => Ok(shared),
        Err(_) => Err(AllocError),
    }
}
