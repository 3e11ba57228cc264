//! Sources, sinks and gates, over memory and over readers and writers (`pide_io`).
use pide_base::{ExecId, Gate, Part, PartKind, Point, Pulled, Pushed, Sink, Source};
use pide_io::{MemSink, MemSource, NoGate, StdSink, StdSource};
use std::alloc::{AllocError, Global};
use std::io;
use std::io::{Read, Write};
use std::process::Abort;
use std::test::Fail;

fn pulls<S: Source>(rt: &impl Abort, source: &mut S, buffer: &mut [u8; 4], want: Pulled) {
    let pulled = source.pull(buffer);
    assert_eq!(rt; pulled, want);
}

fn pushes<K: Sink>(rt: &impl Abort, sink: &mut K, piece: &[u8; 3], want: Pushed) {
    let pushed = sink.push(piece);
    assert_eq!(rt; pushed, want);
}

fn source(alloc: Global) -> Result<MemSource, AllocError> {
    const FAILS: &[u64] = &[2, 6];
    let bytes = Vec::from_slice(alloc, b"abcdef")?;
    let fails = Vec::from_slice(alloc, FAILS)?;
    Ok(MemSource::new(bytes, 3, fails))
}

fn gives_two_pieces(rt: &impl Abort, source: &mut MemSource, buffer: &mut [u8; 4]) {
    pulls(rt, source, buffer, Pulled::Bytes(3));
    assert!(rt; &*buffer == b"abc\0");
    pulls(rt, source, buffer, Pulled::Failed);
    pulls(rt, source, buffer, Pulled::Bytes(3));
    assert!(rt; &*buffer == b"def\0");
}

#[test]
fn a_source_over_memory_gives_pieces_and_fails_where_it_is_to(rt: HostRuntime) -> Result<(), Fail> {
    let mut source = source(rt.alloc())?;
    let mut buffer = [0; 4];
    gives_two_pieces(&rt, &mut source, &mut buffer);
    pulls(&rt, &mut source, &mut buffer, Pulled::End);
    pulls(&rt, &mut source, &mut buffer, Pulled::End);
    pulls(&rt, &mut source, &mut buffer, Pulled::Failed);
    Ok(())
}

fn sink(alloc: Global) -> Result<MemSink, Fail> {
    let fails = Vec::from_slice(alloc, &[2])?;
    Ok(MemSink::new(alloc, 5, fails).ok().ok_or("room")?)
}

#[test]
fn a_sink_over_memory_takes_what_it_has_room_for(rt: HostRuntime) -> Result<(), Fail> {
    let mut sink = sink(rt.alloc())?;
    pushes(&rt, &mut sink, b"abc", Pushed::Took(3));
    pushes(&rt, &mut sink, b"xyz", Pushed::Failed);
    pushes(&rt, &mut sink, b"def", Pushed::Took(2));
    pushes(&rt, &mut sink, b"ghi", Pushed::Failed);
    assert!(rt; sink.contents() == b"abcde".as_slice());
    Ok(())
}

/// Moves one byte at the first call, gives an error at the second, and moves nothing from then on.
#[derive(Drop)]
struct Fitful {
    calls: u8,
}

impl Fitful {
    ghost use Rattle.std.specs.Prelude.{◌≤◌, length, IfOk};

    fn moved(&mut self, piece: &[u8]) -> io::Result<usize>
        ensures { IfOk result (λ count. count ≤ length piece.now) }
    {
        if piece.is_empty() {
            return Ok(0);
        }
        self.calls = self.calls.saturating_add(1);
        match self.calls {
            1 => Ok(1),
            2 => Err(io::Error::from(io::ErrorKind::BrokenPipe)),
            _ => Ok(0),
        }
    }
}

impl Read for Fitful {
    fn read(&mut self, buf: &mut [u8]) -> io::Result<usize> {
        self.moved(buf)
    }
}

impl Write for Fitful {
    fn write(&mut self, buf: &[u8]) -> io::Result<usize> {
        self.moved(buf)
    }

    fn flush(&mut self) -> io::Result<()> {
        Ok(())
    }
}

#[test]
fn a_reader_s_error_is_a_failed_pull(rt: HostRuntime) {
    let mut source = StdSource::new(Fitful { calls: 0 });
    let mut buffer = [0; 4];
    pulls(&rt, &mut source, &mut buffer, Pulled::Bytes(1));
    pulls(&rt, &mut source, &mut buffer, Pulled::Failed);
    pulls(&rt, &mut source, &mut buffer, Pulled::End);
}

#[test]
fn a_writer_s_error_and_a_write_of_nothing_are_failed_pushes(rt: HostRuntime) {
    let mut sink = StdSink::new(Fitful { calls: 0 });
    pushes(&rt, &mut sink, b"abc", Pushed::Took(1));
    pushes(&rt, &mut sink, b"abc", Pushed::Failed);
    pushes(&rt, &mut sink, b"abc", Pushed::Failed);
}

fn pass<G: Gate>(gate: &G, exec: ExecId) {
    gate.at(
        1,
        Point::Claimed(Part {
            exec,
            kind: PartKind::Eval,
        }),
    );
}

#[test]
fn no_gate_holds_nobody(rt: HostRuntime) {
    let exec = ExecId::new(1);
    assert!(rt; exec.is_some());
    if let Some(exec) = exec {
        pass(&NoGate, exec);
    }
}
