//! A sink that waits for workers.
use crate::gates::Progress;
use pide_base::{Pushed, Sink};
use pide_io::MemSink;

/// A sink whose first push waits until a worker has finished a part, for so many looks at the most.
#[derive(Drop)]
pub(crate) struct SlowSink<'a> {
    pub(crate) sink: MemSink,
    pub(crate) progress: &'a Progress,
    pub(crate) looks: u64,
    /// Whether a worker had finished one, where something was pushed.
    pub(crate) waited: Option<bool>,
}

impl<'a> Sink for SlowSink<'a> {
    ghost use Rattle.std.specs.Prelude.{Some};

    ghost contents = { λ k. Some k.sink.contents };

    ghost faults = { λ k. k.sink.faults };

    fn push(&mut self, piece: &[u8]) -> Pushed {
        if self.waited.is_none() {
            self.waited = Some(self.progress.wait(self.looks));
        }
        self.sink.push(piece)
    }
}
