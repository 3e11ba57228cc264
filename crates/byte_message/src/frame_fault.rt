//! What can be wrong with a stream.

/// A header line that isn't fit. `at` is the first byte of its message, counted from the stream's
/// beginning; past 2^64 - 1 it is told as that.
#[derive(Clone, Copy, Debug, PartialEq, Eq)]
pub enum FrameFault {
    /// More than 200 bytes before the newline, or no decimal numbers joined by commas.
    BadHeader { at: u64 },
    /// More than 16 numbers.
    TooMany { at: u64, count: usize },
    /// A chunk of more than 2^24 bytes: the first, by its number from 0.
    TooLong { at: u64, chunk: usize },
}
