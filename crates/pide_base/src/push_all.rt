//! Pushing a whole text into any sink.
ghost use Rattle.std.specs.Prelude.{◌≡◌, ◌≤◌, IsTrue, false};
ghost use Rattle.std.specs.Io.KnownBytes.{Appends};
ghost use Rattle.pide_base.specs.Faults.{Rose};
ghost use Rattle.pide_base.specs.Moves.{AppendsFront};

use crate::sink::{Pushed, Sink};

/// Pushes all the bytes, in order. False where the sink failed: it has then taken a front of them.
pub fn push_whole<K: Sink>(sink: &mut K, bytes: &[u8]) -> bool
    ensures pushed { IsTrue result → Appends (K.contents sink.old) (K.contents sink.new) bytes.now }
    ensures failed { AppendsFront (K.contents sink.old) (K.contents sink.new) bytes.now }
    ensures steady { K.faults sink.old ≤ K.faults sink.new }
    ensures cause { result ≡ false → Rose (K.faults sink.old) (K.faults sink.new) }
{
    let mut rest = bytes;
    'pushing: while !rest.is_empty() {
        match sink.push(rest) {
            Pushed::Took(count) => rest = &rest[count..],
            Pushed::Failed => return false,
        }
    }
    true
}
