//! Why reading stops.
ghost use Rattle.std.specs.Prelude.{◌≡◌};

use crate::frame_fault::FrameFault;
use std::alloc::AllocError;

/// The stream ends within the message that begins at byte `at`.
#[derive(Clone, Copy, Debug, PartialEq, Eq)]
pub struct Truncated {
    /// The first byte of that message, counted from the stream's beginning.
    pub at: u64,
}

/// Why a piece wasn't read to its end.
#[derive(Clone, Copy, Debug, PartialEq, Eq)]
pub enum FeedError {
    /// The stream is at fault, here or before.
    Frame(FrameFault),
    /// Memory ran out.
    NoMemory,
}

impl From<AllocError> for FeedError {
    ghost use Rattle.byte_message.specs.declared.fault.FeedError.{FeedError};

    ghost from_gives = { λ _ error. error ≡ FeedError.NoMemory };

    fn from(_: AllocError) -> FeedError {
        FeedError::NoMemory
    }
}
