//! The writer of the board, behind its workers and beside them.
ghost use Rattle.std.specs.Prelude.{◌≡◌, [], IfOk};
ghost use Rattle.hist_lock.specs.Callers.{child, first_view};
ghost use Rattle.hist_lock.specs.Passes.{view, IsPassOf};

use super::board::{Board, Mark};
use super::hands::{Hands, add};
use super::pen::Pen;
use super::{opened, part};
use hist_lock::{Pass, Role, Shared};
use pide_io::{MemSink, NoGate};
use std::alloc::{AllocError, Global};
use std::process::Abort;
use std::sync::Wait;
use std::test::Fail;
use worker_loop::{Said, Worked, Written, Wrote, work, write_out};

fn told<R: Wait>(rt: &R, lock: &Shared<Board>, first: &mut Pass<Board>, what: Said)
    requires own { IsPassOf lock.now first.old }
    requires first { (view first.old).caller ≡ 0 }
    ensures own { IsPassOf lock.now first.new }
    ensures first { (view first.new).caller ≡ 0 }
{
    let mark = Mark {
        by: 0,
        what,
        byte: None,
    };
    add(rt, lock, first, mark);
}

// A board on which the first caller told that so many tasks are finished, and then this, and the
// pass of another caller.
fn told_board<R: Wait>(
    rt: &R,
    alloc: Global,
    tasks: u64,
    last: Said,
) -> Result<(Shared<Board>, Pass<Board>), AllocError>
    ensures { IfOk result (λ r. IsPassOf r.0 r.1 × (view r.1 ≡ child (first_view []))) }
{
    let (lock, mut first) = opened(alloc, 0, 0)?;
    let other = lock.split(&mut first, Role::Writer);
    'telling: for number in 1..=tasks {
        if let Some(part) = part(number) {
            told(rt, &lock, &mut first, Said::Finished(part));
        }
    }
    told(rt, &lock, &mut first, last);
    Ok((lock, other))
}

// A sink with room for 100 bytes. The calls of these numbers fail.
fn sink(alloc: Global, fails: Vec<u64>) -> Result<MemSink, AllocError> {
    match MemSink::new(alloc, 100, fails) {
        Ok(sink) => Ok(sink),
        Err(_) => Err(AllocError),
    }
}

// What the writer writes of three tasks that are finished, when all has ended.
fn written<R: Wait>(
    rt: &R,
    alloc: Global,
    sink: MemSink,
) -> Result<Wrote<Board, MemSink>, AllocError> {
    let (lock, writer) = told_board(rt, alloc, 3, Said::Ended)?;
    Ok(write_out(rt, &Pen { alloc }, &lock, writer, 1, sink))
}

fn has_written(rt: &impl Abort, wrote: &Wrote<Board, MemSink>, written: Written, bytes: &[u8]) {
    assert!(rt; wrote.written == written);
    assert!(rt; wrote.sink.contents() == bytes);
}

#[test]
fn the_writer_writes_a_byte_for_each_task(rt: HostRuntime) -> Result<(), Fail> {
    let sink = sink(rt.alloc(), Vec::new(rt.alloc()))?;
    let wrote = written(&rt, rt.alloc(), sink)?;
    has_written(&rt, &wrote, Written::Ended, b"xxx");
    Ok(())
}

#[test]
fn a_sink_that_fails_ends_the_writer(rt: HostRuntime) -> Result<(), Fail> {
    let sink = sink(rt.alloc(), vec![in rt.alloc(); 3]?)?;
    let wrote = written(&rt, rt.alloc(), sink)?;
    has_written(&rt, &wrote, Written::WriteFault, b"xx");
    Ok(())
}

// How a worker ends where the board says that the sink has failed.
fn worked_without_sink<R: Wait>(rt: &R, alloc: Global) -> Result<Worked, AllocError> {
    let (lock, worker) = told_board(rt, alloc, 0, Said::Lost)?;
    let shift = work(rt, alloc, &Hands, &lock, worker, 1, &NoGate);
    Ok(shift.worked)
}

#[test]
fn a_worker_ends_where_the_sink_has_failed(rt: HostRuntime) -> Result<(), Fail> {
    let worked = worked_without_sink(&rt, rt.alloc())?;
    assert!(rt; worked == Worked::WriteFault);
    Ok(())
}
