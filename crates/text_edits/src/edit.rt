//! What an edit is.
use crate::text::Text;
use std::alloc::{AllocError, Global};

/// A change of a text. `start` counts the scalars before it.
#[derive(Debug, Drop)]
pub enum Edit {
    /// Puts the text in at the place.
    Insert { start: usize, text: Text },
    /// Takes the text out, which must stand at the place.
    Remove { start: usize, text: Text },
}

impl Edit {
    ghost use Rattle.std.specs.Prelude.{◌≡◌, IfOk};

    /// An edit of the same kind, place and text.
    pub fn copy(&self, alloc: Global) -> Result<Edit, AllocError>
        ensures { IfOk result (λ edit. edit ≡ self.now) }
    {
        Ok(match self {
            Edit::Insert { start, text } => Edit::Insert {
                start: *start,
                text: text.copy(alloc)?,
            },
            Edit::Remove { start, text } => Edit::Remove {
                start: *start,
                text: text.copy(alloc)?,
            },
        })
    }
}
