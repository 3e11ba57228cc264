//! What can be wrong with a header line.

use crate::frame_fault::FrameFault;

/// What is wrong with a line, before its place is known.
#[derive(Clone, Copy, Debug, PartialEq, Eq)]
pub enum LineFault {
    BadHeader,
    TooMany { count: usize },
    TooLong { chunk: usize },
}

impl LineFault {
    ghost use Rattle.std.specs.Prelude.{◌≡◌};
    ghost use Rattle.byte_message.specs.Stream.{placed_fault};

    /// The fault of the message that begins at this byte.
    pub(crate) fn placed(self, at: u64) -> FrameFault
        ensures { result ≡ placed_fault at self }
    {
        match self {
            LineFault::BadHeader => FrameFault::BadHeader { at },
            LineFault::TooMany { count } => FrameFault::TooMany { at, count },
            LineFault::TooLong { chunk } => FrameFault::TooLong { at, chunk },
        }
    }
}
