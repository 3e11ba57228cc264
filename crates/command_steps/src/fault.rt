//! Why a blob lists no facts.
use std::alloc::AllocError;

/// Why a blob lists no facts.
#[derive(Clone, Copy, Debug, PartialEq, Eq)]
pub enum BlobFault {
    /// The first line that is neither blank nor a fact, from 1.
    BadLine(usize),
    NoMemory,
}

impl From<AllocError> for BlobFault {
    ghost use Rattle.std.specs.Prelude.{◌≡◌};
    ghost use Rattle.command_steps.specs.declared.fault.BlobFault.TheVariants.{NoMemory};

    ghost from_gives = { λ _ fault. fault ≡ NoMemory };

    fn from(_: AllocError) -> BlobFault {
        BlobFault::NoMemory
    }
}
