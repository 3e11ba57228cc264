//! Whole messages.

use crate::lengths::Lengths;
use std::marker::Model;

/// A message: its chunks in order, within the limits of messages. The bytes lie one after the
/// other, as they came, in the only memory that a message takes.
#[derive(Debug, Drop)]
pub struct Message {
    lengths: Lengths,
    bytes: Vec<u8>,
}

impl Model for Message {
    ghost use Rattle.std.specs.Prelude.{◌≡◌, ℕ, List, length, sum};
    ghost use Rattle.byte_message.specs.Chunks.{cut};
    ghost use Rattle.byte_message.specs.Stream.{IsMessage};

    ghost Value = { List (List ℕ) };

    ghost view = { λ m. cut m.lengths m.bytes.items };

    ghost invariant = { λ m. (sum m.lengths ≡ length m.bytes.items)
        × IsMessage (cut m.lengths m.bytes.items) };
}

impl Message {
    ghost use Rattle.std.specs.Prelude.{◌≡◌, ◌<◌, [], length, sum};
    ghost use Rattle.std.specs.List.{slice_index_or};
    ghost use Rattle.byte_message.specs.Chunks.{cut};
    ghost use Rattle.byte_message.specs.Stream.{IsMessage};

    /// The bytes, cut into chunks of these lengths.
    pub(crate) fn new(lengths: Lengths, bytes: Vec<u8>) -> Message
        requires whole { sum lengths ≡ length bytes.items }
        requires message { IsMessage (cut lengths bytes.items) }
        ensures { result ≡ cut lengths bytes.items }
    {
        Message { lengths, bytes }
    }

    /// It has some chunks, not too many, and none that is too long.
    pub fn is_within_limits(&self)
        ensures { IsMessage self.now }
    {
        let _ = &self.lengths;
    }

    /// How many chunks there are.
    #[tactic(auto, using(crate::proofs::Cutting::length_cut))]
    pub fn count(&self) -> usize
        ensures { result ≡ length self.now }
    {
        self.lengths.as_slice().len()
    }

    /// The chunk of this number, counted from 0.
    #[tactic(auto, using(crate::proofs::Cutting::length_cut))]
    pub fn chunk(&self, number: usize) -> &[u8]
        requires { number < length self.now }
        ensures { result.now ≡ slice_index_or self.now number [] }
    {
        chunk_of(self.lengths.as_slice(), self.bytes.as_slice(), number)
    }
}

ghost use Rattle.std.specs.Prelude.{◌≡◌, ◌<◌, ◌≤◌, [], length, sum};
ghost use Rattle.std.specs.List.{slice_index_or};
ghost use Rattle.byte_message.specs.Chunks.{cut};

/// The chunk of this number, of bytes with chunks of these lengths.
fn chunk_of<'a>(lengths: &[usize], bytes: &'a [u8], number: usize) -> &'a [u8]
    requires within { number < length lengths.now }
    requires whole { sum lengths.now ≤ length bytes.now }
    ensures { result.now ≡ slice_index_or (cut lengths.now bytes.now) number [] }
{
    match lengths {
        [] => bytes,
        [first, rest @ ..] => {
            if number == 0 {
                &bytes[..*first]
            } else {
                chunk_of(rest, &bytes[*first..], number - 1)
            }
        }
    }
}
