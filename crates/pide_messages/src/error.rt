//! Why a message was not read.

use message_values::{Refusal, ShapeFault};
use std::alloc::AllocError;

/// Why a message was not read.
#[derive(Clone, Copy, Debug, PartialEq, Eq)]
pub enum ReadError {
    /// It asks nothing, for this reason, one of the first five: from `UnknownFunction` to
    /// `BadData`.
    Refused(Refusal),
    /// Memory ran out, which says nothing of the message.
    NoMemory,
}

impl From<AllocError> for ReadError {
    ghost use Rattle.pide_messages.specs.declared.error.ReadError.TheVariants.{NoMemory};
    ghost use Rattle.std.specs.Prelude.{◌≡◌};

    ghost from_gives = { λ _ error. error ≡ NoMemory };

    fn from(_refused: AllocError) -> ReadError {
        ReadError::NoMemory
    }
}

impl From<ShapeFault> for ReadError {
    ghost use Rattle.pide_messages.specs.Gives.{shape_error};
    ghost use Rattle.std.specs.Prelude.{◌≡◌};

    ghost from_gives = { λ fault error. error ≡ shape_error fault };

    fn from(fault: ShapeFault) -> ReadError {
        match fault {
            ShapeFault::WrongShape => ReadError::Refused(Refusal::BadData),
            ShapeFault::NoMemory => ReadError::NoMemory,
        }
    }
}
