//! A sink over a real stream.
ghost use Rattle.std.specs.Prelude.{◌≡◌, None};

use pide_base::{Pushed, Sink};
use std::io::Write;

/// Writes to a writer, as standard output is. It tells no content, and counts the writer's errors.
/// A write that takes nothing is an error too.
#[derive(Drop)]
pub struct StdSink<W> {
    writer: W,
    faults: u64,
}

impl<W> StdSink<W> {
    /// A sink over this writer, with no fault yet.
    pub fn new(writer: W) -> StdSink<W>
        ensures { result ≡ record { writer = writer; faults = 0 } }
    {
        StdSink { writer, faults: 0 }
    }
}

impl<W: Write> Sink for StdSink<W> {
    ghost contents = { λ _. None };

    ghost faults = { λ k. k.faults };

    fn push(&mut self, piece: &[u8]) -> Pushed {
        match self.writer.write(piece) {
            Ok(0) | Err(_) => {
                self.faults = self.faults.saturating_add(1);
                Pushed::Failed
            }
            Ok(count) => Pushed::Took(count),
        }
    }
}
