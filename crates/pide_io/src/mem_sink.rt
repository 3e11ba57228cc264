//! A sink over memory. A contract sees one as a `SinkState`.
ghost use Rattle.std.specs.Prelude.{◌≡◌, ◌<◌, ◌≤◌, length, Some, [], IfOk, IfErr};
ghost use Rattle.pide_base.specs.Faults.{Rose};
ghost use Rattle.pide_base.specs.Moves.{PushedSo};
ghost use Rattle.pide_io.specs.Memory.{SinkState, Pushes};

use pide_base::{Pushed, Sink};
use std::alloc::{AllocFailed, Global};
use std::marker::Model;

/// Takes bytes into memory until its room is used up. The calls whose numbers, counted from 1, are
/// listed fail.
#[derive(Drop)]
pub struct MemSink {
    bytes: Vec<u8>,
    room: usize,
    fails: Vec<u64>,
    calls: u64,
    faults: u64,
}

impl Model for MemSink {
    ghost use Rattle.std.specs.Prelude.{◌+◌, ◌≤◌, vec_len, vec_capacity};
    ghost use Rattle.pide_io.specs.Memory.{SinkState};

    ghost Value = { SinkState };

    ghost view = { λ k. record {
      contents = k.bytes.items;
      room = k.room;
      fails = k.fails.items;
      calls = k.calls;
      faults = k.faults;
    } };

    ghost invariant = { λ k. vec_len k.bytes + k.room ≤ vec_capacity k.bytes };
}

impl MemSink {
    /// An empty sink with room for so many bytes. Where there is no memory, the list is handed
    /// back.
    pub fn new(
        alloc: Global,
        room: usize,
        fails: Vec<u64>,
    ) -> Result<MemSink, AllocFailed<Vec<u64>>>
        ensures ok { IfOk result (λ sink. sink ≡ record {
          contents = [];
          room = room;
          fails = fails.items;
          calls = 0;
          faults = 0;
        }) }
        ensures err { IfErr result (λ failed. failed.value ≡ fails) }
    {
        match Vec::with_capacity(alloc, room) {
            Ok(bytes) => Ok(MemSink {
                bytes,
                room,
                fails,
                calls: 0,
                faults: 0,
            }),
            Err(_) => Err(AllocFailed { value: fails }),
        }
    }

    /// How many calls failed: a number of 64 bits that stands still at its end.
    pub fn faults(&self) -> u64
        ensures { result ≡ self.now.faults }
    {
        self.faults
    }

    /// All bytes taken so far.
    pub fn contents(&self) -> &[u8]
        ensures { result.now ≡ self.now.contents }
    {
        self.bytes.as_slice()
    }
}

impl Sink for MemSink {
    ghost contents = { λ k. Some k.contents };

    ghost faults = { λ k. k.faults };

    fn push(&mut self, piece: &[u8]) -> Pushed
        requires { 0 < length piece.now }
        ensures bytes { PushedSo (Some self.old.contents) (Some self.new.contents)
            piece.now result }
        ensures steady { self.old.faults ≤ self.new.faults }
        ensures cause { result ≡ Pushed.Failed → Rose self.old.faults self.new.faults }
        ensures exact { Pushes self.old piece.now result self.new }
    {
        self.calls = self.calls.saturating_add(1);
        if self.fails.contains(&self.calls) {
            self.faults = self.faults.saturating_add(1);
            return Pushed::Failed;
        }
        if self.room == 0 {
            self.faults = self.faults.saturating_add(1);
            return Pushed::Failed;
        }
        let count = self.room.min(piece.len());
        if self.bytes.extend_from_slice(&piece[..count]).is_err() {
            unreachable!();
        }
        self.room -= count;
        Pushed::Took(count)
    }
}
