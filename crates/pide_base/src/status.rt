//! How the program ends.
ghost use Rattle.std.specs.Prelude.{◌≡◌};

/// The status of the whole program. Places count bytes of the input from 0.
#[derive(Clone, Copy, Debug, PartialEq, Eq)]
pub enum Status {
    /// All input was read and served.
    Done,
    /// The words of the command line are no command.
    Usage,
    /// The source failed.
    ReadFault,
    /// The sink failed.
    WriteFault,
    /// The header line that begins at this byte is none.
    BadFrame { at: u64 },
    /// The input ended inside the message that begins at this byte.
    Truncated { at: u64 },
    /// The input is longer than the program takes.
    LongInput,
    /// There was not enough memory.
    NoMemory,
    /// The first byte that is in no whole character of UTF-8.
    BadText { at: u64 },
    /// A reply has a chunk that is too long for a byte message; the first such chunk has so many
    /// bytes.
    BadReply { len: u64 },
}

impl Status {
    ghost use Rattle.pide_base.specs.Exit.{exit_number};

    /// The number that the process ends with.
    pub fn exit_number(self) -> u8
        ensures { result ≡ exit_number self }
    {
        match self {
            Status::Done => 0,
            Status::Usage => 2,
            Status::ReadFault => 3,
            Status::WriteFault => 4,
            Status::BadFrame { at: _ } => 5,
            Status::Truncated { at: _ } => 6,
            Status::LongInput => 7,
            Status::NoMemory => 8,
            Status::BadText { at: _ } => 9,
            Status::BadReply { len: _ } => 10,
        }
    }
}
