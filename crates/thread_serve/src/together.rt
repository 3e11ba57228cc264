//! The reader, the workers and the writer, at once.
ghost use Rattle.std.specs.Prelude.{◌≡◌, ◌^◌, ◌<◌, [], vec_len, IfOk, IfErr};
ghost use Rattle.std.specs.Thread.{IsSync};
ghost use mathlib.Core.List.{IsPrefix};
ghost use Rattle.pide_base.specs.Faults.{Rose};
ghost use Rattle.hist_lock.specs.Known.{IsSameCaller};
ghost use Rattle.hist_lock.specs.Passes.{view, IsPassOf};
ghost use Rattle.worker_loop.specs.Crew.{AreBack, AreWorkers};
ghost use Rattle.view_laws.specs.Says.{says};
ghost use Rattle.thread_serve.specs.Reader.{IsAtRest, calls_made};
ghost use Rattle.thread_serve.specs.Stopped.{HasRead, HasWritten, IsWriter};

use crate::crew::Crew;
use crate::locked::Locked;
use crate::reading::{Read, read_to_end};
use crate::working::{Stopped, work_and_write};
use hist_lock::{Pass, Shared};
use language::Language;
use pide_base::{Gate, Sink, Source, Status};
use reply_outbox::Past;
use session_rules::{Entry, Service};
use std::sync::Wait;
use std::thread::{Threads, join};

/// Lets the reader read here, and workers work and the writer write in other threads, until all
/// have stopped. Where no thread can be made the reader reads first, and then all has ended.
pub(crate) fn run_together<
    L: Language + Send + Sync,
    P: Past<Service, Entry> + Drop + Send,
    R: Threads + Wait + Sync,
    G: Gate + Sync,
    S: Source + Drop,
    K: Sink + Drop + Send,
>(
    rt: &R,
    crew: &Crew<'_, L>,
    lock: &Shared<Locked<L, P>>,
    gate: &G,
    reader: Pass<Locked<L, P>>,
    source: S,
    limit: usize,
    passes: Vec<Pass<Locked<L, P>>>,
    writer: Pass<Locked<L, P>>,
    who: u32,
    sink: K,
) -> (Stopped<Locked<L, P>, K>, Read<Locked<L, P>, S>)
where
    L::State: Send + Sync,
    requires rests { IsAtRest lock.now reader }
    requires new { calls_made (view reader).mine ≡ [] }
    requires few { vec_len passes < 2 ^ 32 }
    requires workers { AreWorkers says lock.now 1 passes.items }
    requires writer { IsWriter L.lang lock.now who writer }
    ensures back { IfOk result.0.workers (λ shifts. AreBack says lock.now 1 shifts.items
        × (vec_len shifts ≡ vec_len passes)) }
    ensures idle { IfErr result.0.workers (λ failed. AreWorkers says lock.now 1
        failed.value.items × (vec_len failed.value ≡ vec_len passes)) }
    ensures wrote { IsPassOf lock.now result.0.wrote.pass }
    ensures written { HasWritten L.lang who
        (record { contents = K.contents sink; faults = K.faults sink }) result.0.wrote.written
        (view result.0.wrote.pass) (record {
          contents = K.contents result.0.wrote.sink;
          faults = K.faults result.0.wrote.sink;
        }) }
    ensures own { IsPassOf lock.now result.1.pass }
    ensures same { IsSameCaller (view reader) (view result.1.pass) }
    ensures mine { IsPrefix (view reader).mine (view result.1.pass).mine }
    ensures read { HasRead limit result.1.status (S.left source) (S.left result.1.source)
        (view result.1.pass) }
    ensures read_fault { result.1.status ≡ Status.ReadFault
        → Rose (S.faults source) (S.faults result.1.source) }
{
    join(
        rt,
        move || -> Stopped<Locked<L, P>, K>
            requires sync { IsSync R.row }
            requires few { vec_len passes < 2 ^ 32 }
            requires workers { AreWorkers says lock.now 1 passes.items }
            requires writer { IsWriter L.lang lock.now who writer }
            ensures back { IfOk result.workers (λ shifts. AreBack says lock.entry.now 1
                shifts.items × (vec_len shifts ≡ vec_len passes)) }
            ensures idle { IfErr result.workers (λ failed. AreWorkers says lock.entry.now 1
                failed.value.items × (vec_len failed.value ≡ vec_len passes)) }
            ensures wrote { IsPassOf lock.entry.now result.wrote.pass }
            ensures written { HasWritten L.lang who
                (record { contents = K.contents sink; faults = K.faults sink })
                result.wrote.written (view result.wrote.pass)
                (record {
                  contents = K.contents result.wrote.sink;
                  faults = K.faults result.wrote.sink;
                }) }
        { work_and_write(rt, crew, lock, passes, gate, writer, who, sink) },
        move || -> Read<Locked<L, P>, S>
            requires rests { IsAtRest lock.now reader }
            requires new { calls_made (view reader).mine ≡ [] }
            ensures own { IsPassOf lock.entry.now result.pass }
            ensures same { IsSameCaller (view reader) (view result.pass) }
            ensures mine { IsPrefix (view reader).mine (view result.pass).mine }
            ensures read { HasRead limit result.status (S.left source) (S.left result.source)
                (view result.pass) }
            ensures read_fault { result.status ≡ Status.ReadFault
                → Rose (S.faults source) (S.faults result.source) }
        { read_to_end(rt, crew, lock, reader, gate, source, limit) },
    )
}
