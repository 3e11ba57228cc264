//! What is read.
use text_edits::Text;

/// What was read of a source. Places count bytes from 0.
#[derive(Drop)]
pub enum Input {
    /// Its text.
    Whole(Text),
    /// The first byte that is in no whole character of UTF-8.
    BadText { at: u64 },
    /// The source has more than 2^24 bytes.
    LongInput,
    /// The source failed.
    ReadFault,
}
