//! Why nothing was assigned.

use std::alloc::AllocError;

/// Why nothing was assigned.
#[derive(Clone, Copy, Debug, PartialEq, Eq)]
pub enum AssignFault {
    /// An execution's number would pass the greatest id.
    Limit,
    NoMemory,
}

impl From<AllocError> for AssignFault {
    ghost use Rattle.std.specs.Prelude.{◌≡◌};
    ghost use Rattle.exec_assign.specs.declared.fault.AssignFault.TheVariants.{NoMemory};

    ghost from_gives = { λ _ fault. fault ≡ NoMemory };

    fn from(_refused: AllocError) -> AssignFault {
        AssignFault::NoMemory
    }
}
