//! A source over a real stream.
ghost use Rattle.std.specs.Prelude.{◌≡◌, None};

use pide_base::{Pulled, Source};
use std::io::Read;
use std::marker::Model;

/// The bytes of a reader, as standard input is. It tells no content, and counts the reader's
/// errors.
#[derive(Drop)]
pub struct StdSource<R> {
    reader: R,
    faults: u64,
}

impl<R> StdSource<R> {
    /// A source over this reader, with no fault yet.
    pub fn new(reader: R) -> StdSource<R>
        ensures { result ≡ record { reader = reader; faults = 0 } }
    {
        StdSource { reader, faults: 0 }
    }
}

impl<R: Read> Source for StdSource<R> {
    ghost left = { λ _. None };

    ghost faults = { λ s. s.faults };

    fn pull(&mut self, buffer: &mut [u8]) -> Pulled {
        match self.reader.read(buffer) {
            Ok(0) => Pulled::End,
            Ok(count) => Pulled::Bytes(count),
            Err(_) => {
                self.faults = self.faults.saturating_add(1);
                Pulled::Failed
            }
        }
    }
}
