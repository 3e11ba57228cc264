//! A source over memory. A contract sees one as a `SourceState`.
ghost use Rattle.std.specs.Prelude.{◌≡◌, ◌<◌, ◌≤◌, length, take, Some};
ghost use Rattle.pide_base.specs.Faults.{Rose, risen};
ghost use Rattle.pide_base.specs.Moves.{PulledSo};
ghost use Rattle.pide_io.specs.Memory.{SourceState, Pulls, is_to_fail};

use pide_base::{Pulled, Source};
use std::marker::Model;

/// Bytes in memory, given in pieces of at most so many bytes. The calls whose numbers, counted from
/// 1, are listed fail.
#[derive(Drop)]
pub struct MemSource {
    bytes: Vec<u8>,
    at: usize,
    piece: usize,
    fails: Vec<u64>,
    calls: u64,
    faults: u64,
}

impl Model for MemSource {
    ghost use Rattle.std.specs.Prelude.{◌<◌, ◌≤◌, drop, vec_len};
    ghost use Rattle.pide_io.specs.Memory.{SourceState};

    ghost Value = { SourceState };

    ghost view = { λ s. record {
      left = drop s.at s.bytes.items;
      piece = s.piece;
      fails = s.fails.items;
      calls = s.calls;
      faults = s.faults;
    } };

    ghost invariant = { λ s. (s.at ≤ vec_len s.bytes) × (0 < s.piece) };
}

impl MemSource {
    /// A source of these bytes, none of which is pulled yet.
    pub fn new(bytes: Vec<u8>, piece: usize, fails: Vec<u64>) -> MemSource
        requires { 0 < piece }
        ensures { result ≡ record {
          left = bytes.items;
          piece = piece;
          fails = fails.items;
          calls = 0;
          faults = 0;
        } }
    {
        MemSource {
            bytes,
            at: 0,
            piece,
            fails,
            calls: 0,
            faults: 0,
        }
    }

    /// How many calls failed: a number of 64 bits that stands still at its end.
    pub fn faults(&self) -> u64
        ensures { result ≡ self.now.faults }
    {
        self.faults
    }
}

/// Moves the first bytes of what is left to the front of the buffer.
fn copy_front(buffer: &mut [u8], left: &[u8], count: usize)
    requires fits { count ≤ length buffer.old }
    requires enough { count ≤ length left.now }
    ensures { take count buffer.new ≡ take count left.now }
{
    buffer[..count].copy_from_slice(&left[..count]);
}

impl Source for MemSource {
    ghost left = { λ s. Some s.left };

    ghost faults = { λ s. s.faults };

    fn pull(&mut self, buffer: &mut [u8]) -> Pulled
        requires { 0 < length buffer.old }
        ensures bytes { PulledSo (Some self.old.left) (Some self.new.left) buffer.new result }
        ensures steady { self.old.faults ≤ self.new.faults }
        ensures cause { result ≡ Pulled.Failed → Rose self.old.faults self.new.faults }
        ensures exact { Pulls self.old buffer.new result self.new }
    {
        self.calls = self.calls.saturating_add(1);
        if self.fails.contains(&self.calls) {
            self.faults = self.faults.saturating_add(1);
            return Pulled::Failed;
        }
        let left = &self.bytes[self.at..];
        let count = self.piece.min(buffer.len()).min(left.len());
        if count == 0 {
            return Pulled::End;
        }
        copy_front(buffer, left, count);
        self.at += count;
        Pulled::Bytes(count)
    }
}
