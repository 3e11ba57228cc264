//! The lengths of chunks, in place.
ghost use Rattle.std.specs.Prelude.{◌≡◌, [], ◌∷◌, ◌++◌, take};
ghost use Rattle.byte_message.specs.Limits.{most_chunks};

use arrayvec::ArrayVec;
use std::marker::Model;

/// The most chunks of a message.
pub(crate) const MOST_CHUNKS: usize = 16;

/// The lengths of a message's chunks in order, which stand in the message itself and take no memory
/// of their own.
#[derive(Debug, Drop)]
pub struct Lengths {
    inner: ArrayVec<usize, 16>,
}

impl Model for Lengths {
    ghost use Rattle.std.specs.Prelude.{ℕ, List};
    ghost use Rattle.std.specs.Coded.{coded_list, coded_ℕ};

    ghost Value = { List ℕ };

    ghost coded = { coded_list coded_ℕ };

    ghost view = { λ l. l.inner.items };
}

impl Lengths {
    /// No lengths.
    pub(crate) fn new() -> Lengths
        ensures { result ≡ [] }
    {
        Lengths {
            inner: ArrayVec::new(),
        }
    }

    /// Adds a length, where a message may have one more chunk.
    pub(crate) fn push(&mut self, length: usize)
        ensures { self.new ≡ take most_chunks (self.old ++ length ∷ []) }
    {
        if !self.inner.is_full() {
            self.inner.push(length);
        }
    }

    /// The lengths.
    pub(crate) fn as_slice(&self) -> &[usize]
        ensures { result.now ≡ self.now }
    {
        self.inner.as_slice()
    }

    /// The same lengths once more.
    pub(crate) fn copy(&self) -> Lengths
        ensures { result ≡ self.now }
    {
        let mut inner = ArrayVec::new();
        if inner.try_extend_from_slice(self.inner.as_slice()).is_err() {
            unreachable!()
        }
        Lengths { inner }
    }
}
