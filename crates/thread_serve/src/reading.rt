//! The reader takes its input, and ends all.
ghost use Rattle.std.specs.Prelude.{◌≡◌, ◌≢◌, true, false, []};
ghost use mathlib.Core.List.{IsPrefix};
ghost use Rattle.pide_base.specs.Faults.{Rose};
ghost use Rattle.hist_lock.specs.Known.{IsSameCaller};
ghost use Rattle.hist_lock.specs.Passes.{view, IsPassOf};
ghost use Rattle.thread_serve.specs.Reader.{IsAtRest, calls_made};
ghost use Rattle.thread_serve.specs.Stopped.{HasRead, IsHalt};

use crate::crew::Crew;
use crate::locked::Locked;
use crate::reader::Reader;
use hist_lock::{Pass, Shared, State};
use language::Language;
use message_input::answer_input;
use pide_base::{Gate, Source, Status};
use reply_outbox::Past;
use session_rules::{Entry, Service};
use std::sync::Wait;

/// What the reader brings back.
#[derive(Drop)]
pub(crate) struct Read<S: State, I> {
    pub(crate) pass: Pass<S>,
    pub(crate) source: I,
    pub(crate) status: Status,
}

/// Whether answering halted before the input's end.
fn is_halt(status: Status) -> bool
    ensures halt { result ≡ true → IsHalt status }
    ensures none { result ≡ false → (status ≢ Status.WriteFault) × (status ≢ Status.NoMemory) }
{
    match status {
        Status::WriteFault | Status::NoMemory => true,
        _ => false,
    }
}

/// Has the messages of the source answered, to its end, and ends all whatever the status, so that
/// workers and the writer stop too.
pub(crate) fn read_to_end<L: Language, P: Past<Service, Entry> + Drop, R: Wait, G: Gate, S: Source>(
    rt: &R,
    crew: &Crew<'_, L>,
    lock: &Shared<Locked<L, P>>,
    pass: Pass<Locked<L, P>>,
    gate: &G,
    source: S,
    limit: usize,
) -> Read<Locked<L, P>, S>
    requires rests { IsAtRest lock.now pass }
    requires new { calls_made (view pass).mine ≡ [] }
    ensures own { IsPassOf lock.now result.pass }
    ensures same { IsSameCaller (view pass) (view result.pass) }
    ensures mine { IsPrefix (view pass).mine (view result.pass).mine }
    ensures read { HasRead limit result.status (S.left source) (S.left result.source)
        (view result.pass) }
    ensures read_fault { result.status ≡ Status.ReadFault
        → Rose (S.faults source) (S.faults result.source) }
{
    let mut source = source;
    let mut reader = Reader {
        rt,
        crew,
        lock,
        gate,
        pass,
    };
    let status = answer_input(crew.alloc, &mut reader, &mut source, limit);
    let Reader {
        rt: _,
        crew: _,
        lock: _,
        gate: _,
        pass,
    } = reader;
    let mut pass = pass;
    if is_halt(status) {
        crew.end(rt, lock, &mut pass);
        return Read {
            pass,
            source,
            status,
        };
    }
    Read {
        pass,
        source,
        status,
    }
}
