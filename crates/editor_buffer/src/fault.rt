//! Why an update is not prepared.
ghost use Rattle.std.specs.Prelude.{◌≡◌};

use message_values::Refusal;
use std::alloc::AllocError;

/// Why an update is not prepared. Nothing has changed then.
#[derive(Clone, Copy, Debug, PartialEq, Eq)]
pub enum PrepareError {
    /// The document refuses it.
    Refused(Refusal),
    /// Memory ran out.
    NoMemory,
}

impl From<AllocError> for PrepareError {
    ghost use Rattle.editor_buffer.specs.declared.fault.PrepareError.{PrepareError};

    ghost from_gives = { λ _ error. error ≡ PrepareError.NoMemory };

    fn from(_: AllocError) -> PrepareError {
        PrepareError::NoMemory
    }
}
