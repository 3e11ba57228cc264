//! Why a body was not read.

use std::alloc::AllocError;

/// Why a body was not read.
#[derive(Clone, Copy, Debug, PartialEq, Eq)]
pub enum ShapeFault {
    /// It encodes no value of the shape.
    WrongShape,
    /// Memory ran out, which says nothing of the body.
    NoMemory,
}

impl From<AllocError> for ShapeFault {
    ghost use Rattle.message_values.specs.declared.fault.ShapeFault.TheVariants.{NoMemory};
    ghost use Rattle.std.specs.Prelude.{◌≡◌};

    ghost from_gives = { λ _ fault. fault ≡ NoMemory };

    fn from(_refused: AllocError) -> ShapeFault {
        ShapeFault::NoMemory
    }
}
