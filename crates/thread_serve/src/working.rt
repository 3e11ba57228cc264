//! Workers and the writer, in threads of their own.
ghost use Rattle.std.specs.Prelude.{◌≡◌, ◌^◌, ◌<◌, vec_len, IfOk, IfErr};
ghost use Rattle.std.specs.Thread.{IsSync};
ghost use Rattle.hist_lock.specs.Passes.{view, IsPassOf};
ghost use Rattle.worker_loop.specs.Crew.{AreBack, AreWorkers};
ghost use Rattle.view_laws.specs.Says.{says};
ghost use Rattle.thread_serve.specs.Stopped.{HasWritten, IsWriter};

use crate::crew::Crew;
use crate::locked::Locked;
use crate::writer::Writer;
use hist_lock::{Pass, Shared, State};
use language::Language;
use pide_base::{Gate, Sink};
use reply_outbox::Past;
use session_rules::{Entry, Service};
use std::alloc::AllocFailed;
use std::sync::Wait;
use std::thread::{Threads, join};
use worker_loop::{Shift, Wrote, run_workers, write_out};

/// The workers, once they have stopped, or their passes where none could begin for want of memory.
pub(crate) type Workers<S> = Result<Vec<Shift<S>>, AllocFailed<Vec<Pass<S>>>>;

/// What workers and the writer bring back.
#[derive(Drop)]
pub(crate) struct Stopped<S: State, K> {
    pub(crate) workers: Workers<S>,
    pub(crate) wrote: Wrote<S, K>,
}

/// Writes replies until all has ended or the sink fails.
fn write<L: Language, P: Past<Service, Entry> + Drop, R: Wait, K: Sink>(
    rt: &R,
    lock: &Shared<Locked<L, P>>,
    pass: Pass<Locked<L, P>>,
    who: u32,
    sink: K,
) -> Wrote<Locked<L, P>, K>
    requires writer { IsWriter L.lang lock.now who pass }
    ensures own { IsPassOf lock.now result.pass }
    ensures written { HasWritten L.lang who
        (record { contents = K.contents sink; faults = K.faults sink }) result.written
        (view result.pass)
        (record { contents = K.contents result.sink; faults = K.faults result.sink }) }
{
    write_out(rt, &Writer, lock, pass, who, sink)
}

/// Lets workers work and the writer write, until all has ended.
pub(crate) fn work_and_write<
    L: Language + Send + Sync,
    P: Past<Service, Entry> + Drop + Send,
    R: Threads + Wait + Sync,
    G: Gate + Sync,
    K: Sink + Drop + Send,
>(
    rt: &R,
    crew: &Crew<'_, L>,
    lock: &Shared<Locked<L, P>>,
    passes: Vec<Pass<Locked<L, P>>>,
    gate: &G,
    writer: Pass<Locked<L, P>>,
    who: u32,
    sink: K,
) -> Stopped<Locked<L, P>, K>
where
    L::State: Send + Sync,
    requires few { vec_len passes < 2 ^ 32 }
    requires workers { AreWorkers says lock.now 1 passes.items }
    requires writer { IsWriter L.lang lock.now who writer }
    ensures back { IfOk result.workers (λ shifts. AreBack says lock.now 1 shifts.items
        × (vec_len shifts ≡ vec_len passes)) }
    ensures idle { IfErr result.workers (λ failed. AreWorkers says lock.now 1 failed.value.items
        × (vec_len failed.value ≡ vec_len passes)) }
    ensures own { IsPassOf lock.now result.wrote.pass }
    ensures written { HasWritten L.lang who
        (record { contents = K.contents sink; faults = K.faults sink }) result.wrote.written
        (view result.wrote.pass)
        (record { contents = K.contents result.wrote.sink; faults = K.faults result.wrote.sink }) }
{
    let (workers, wrote) = join(
        rt,
        move || -> Workers<Locked<L, P>>
            requires sync { IsSync R.row }
            requires few { vec_len passes < 2 ^ 32 }
            requires workers { AreWorkers says lock.now 1 passes.items }
            ensures back { IfOk result (λ shifts. AreBack says lock.entry.now 1 shifts.items
                × (vec_len shifts ≡ vec_len passes)) }
            ensures idle { IfErr result (λ failed. AreWorkers says lock.entry.now 1
                failed.value.items × (vec_len failed.value ≡ vec_len passes)) }
        { run_workers(rt, crew.alloc, crew, lock, passes, gate) },
        move || -> Wrote<Locked<L, P>, K>
            requires writer { IsWriter L.lang lock.now who writer }
            ensures own { IsPassOf lock.entry.now result.pass }
            ensures written { HasWritten L.lang who
                (record { contents = K.contents sink; faults = K.faults sink }) result.written
                (view result.pass)
                (record { contents = K.contents result.sink; faults = K.faults result.sink }) }
        { write(rt, lock, writer, who, sink) },
    );
    Stopped { workers, wrote }
}
