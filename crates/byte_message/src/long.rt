//! Chunks that are too long, among those that a header line names.
ghost use Rattle.std.specs.Prelude.{◌≡◌, List, ℕ, slice_get};
ghost use Rattle.byte_message.specs.Long.{long_lengths};
ghost use Rattle.byte_message.specs.Stream.{plain_spelling};

use crate::line::LONGEST_CHUNK;

/// The length of the first chunk that is too long for a message, where one is: of the chunks of
/// which these bytes are the plain spelling, as the header line tells them.
pub fn long_chunk(spelled: &[u8]) -> Option<u64>
    ensures { (chunks : List (List ℕ)) → spelled.now ≡ plain_spelling chunks
        → result ≡ slice_get (long_lengths chunks) 0 }
{
    let mut size: u64 = 0;
    let mut rest = spelled;
    'header: while let [byte, after @ ..] = rest {
        if byte.is_ascii_digit() {
            size = size
                .saturating_mul(10)
                .saturating_add((*byte - b'0') as u64);
        } else if size > LONGEST_CHUNK as u64 {
            return Some(size);
        } else if *byte == b'\n' {
            return None;
        } else {
            size = 0;
        }
        rest = after;
    }
    None
}
