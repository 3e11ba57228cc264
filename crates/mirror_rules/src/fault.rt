//! Why a mirror takes nothing more.

use byte_message::FrameFault;

/// The first fault of what was heard.
#[derive(Clone, Copy, Debug, PartialEq, Eq)]
pub enum MirrorFault {
    /// The bytes are no stream of messages.
    Frame(FrameFault),
    /// A reply that can't be read, that answers nothing, or that doesn't fit what was sent. `at` is
    /// its first byte, counted from the beginning of all that was heard; past 2^64 - 1 it is told
    /// as that.
    Unexpected { at: u64 },
}
