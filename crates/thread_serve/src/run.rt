//! A run: the messages of a source, served to its end.
ghost use Rattle.std.specs.Prelude.{◌≡◌, ◌≢◌, ◌≤◌, ◌∷◌, ℕ, [], vec_capacity};
ghost use Rattle.pide_base.specs.Faults.{Rose};
ghost use Rattle.hist_lock.specs.Callers.{first_view};
ghost use Rattle.hist_lock.specs.Passes.{view, IsPassOf};
ghost use Rattle.message_values.specs.Workers.{most_workers};
ghost use Rattle.reply_outbox.specs.declared.item.Item.TheVariants.{Opened};
ghost use Rattle.session_rules.specs.declared.service.Service.TheVariants.{Workers};
ghost use Rattle.message_input.specs.Causes.{BadFrameSo, CompleteSo, DoneSo, LongSo, TruncatedSo};
ghost use Rattle.document_serve.specs.Headline.{BytesSent, BytesWritten, MessagesRead, OneLegalHistory};
ghost use Rattle.thread_serve.specs.Promises.{IsServed, LosesOnly, NobodyHolds};

use crate::crew::Crew;
use crate::finishing::finish;
use crate::locked::Locked;
use crate::served::Served;
use crate::together::run_together;
use document_session::Session;
use document_session::keeping_rules_below::history_law;
use hist_lock::{Pass, Role, Shared};
use language::Language;
use pide_base::{Gate, Sink, Source, Status};
use reply_outbox::Past;
use session_rules::{Entry, Service};
use std::alloc::{AllocFailed, Global};
use std::sync::Wait;
use std::thread::Threads;
use worker_loop::split_workers;

/// How many workers serve a session.
fn worker_count<L: Language, P: Past<Service, Entry> + Drop>(session: &Session<L, P>) -> u32
    requires { (count : ℕ) × (session.now.service ≡ Workers count) }
    ensures { session.now.service ≡ Workers result }
{
    match session.service() {
        Service::Workers { count } => count,
        Service::Script => unreachable!(),
    }
}

/// Nothing was read or written: there was not enough memory to begin.
fn unbegun<L: Language, P: Past<Service, Entry> + Drop, S: Source, K: Sink>(
    source: S,
    sink: K,
    session: Session<L, P>,
) -> Served<L, P, S, K>
    requires new { session.items ≡ Opened session.service ∷ [] }
    ensures service { result.session.service ≡ session.service }
    ensures served { (limit : ℕ) → IsServed L.lang limit result.status (S.left source)
        (S.left result.source) (K.contents sink) (K.contents result.sink) result.session }
    ensures no_memory { result.status ≡ Status.NoMemory }
{
    history_law::<L>();
    session.none_due();
    Served {
        status: Status::NoMemory,
        source,
        sink,
        session,
    }
}

/// Splits the passes of the workers and of the writer, and lets all run.
fn run<
    L: Language + Send + Sync,
    P: Past<Service, Entry> + Drop + Send,
    R: Threads + Wait + Sync,
    G: Gate + Sync,
    S: Source + Drop,
    K: Sink + Drop + Send,
>(
    rt: &R,
    crew: &Crew<'_, L>,
    lock: Shared<Locked<L, P>>,
    reader: Pass<Locked<L, P>>,
    passes: Vec<Pass<Locked<L, P>>>,
    count: u32,
    gate: &G,
    source: S,
    limit: usize,
    sink: K,
) -> Served<L, P, S, K>
where
    L::State: Send + Sync,
    requires own { IsPassOf lock reader }
    requires first { view reader ≡ first_view (Opened (Workers count) ∷ []) }
    requires few { count ≤ most_workers }
    requires empty { passes.items ≡ [] }
    requires room { count ≤ vec_capacity passes }
    ensures service { result.session.service ≡ Workers count }
    ensures served { IsServed L.lang limit result.status (S.left source)
        (S.left result.source) (K.contents sink) (K.contents result.sink) result.session }
    ensures read_fault { result.status ≡ Status.ReadFault
        → Rose (S.faults source) (S.faults result.source) }
    ensures write_fault { result.status ≡ Status.WriteFault
        → Rose (K.faults sink) (K.faults result.sink) }
{
    let mut reader = reader;
    let passes = split_workers::<Locked<L, P>, Crew<'_, L>>(&lock, &mut reader, passes, count);
    let writer = lock.split(&mut reader, Role::Writer);
    let (stopped, read) = run_together(
        rt,
        crew,
        &lock,
        gate,
        reader,
        source,
        limit,
        passes,
        writer,
        count + 1,
        sink,
    );
    finish(lock, stopped, read, count)
}

/// Serves the messages of the source by a reader, which this thread is, as many workers as the
/// session is served by, and a writer, in threads of their own. The session must be new. At most
/// `limit` bytes are taken.
///
/// Where no thread can be made, this one does all, one after the other. The status is WriteFault
/// where the sink failed, and NoMemory where memory was short for the reader, or where the run
/// would be done, but was short of memory for a worker; else it tells how the input ended: Done,
/// Truncated, BadFrame, LongInput or ReadFault.
pub fn serve<
    L: Language + Send + Sync,
    P: Past<Service, Entry> + Drop + Send,
    R: Threads + Wait + Sync,
    G: Gate + Sync,
    S: Source + Drop,
    K: Sink + Drop + Send,
>(
    rt: &R,
    alloc: Global,
    lang: &L,
    source: S,
    sink: K,
    session: Session<L, P>,
    gate: &G,
    limit: usize,
) -> Served<L, P, S, K>
where
    L::State: Send + Sync,
    requires new { session.items ≡ Opened session.service ∷ [] }
    requires workers { (count : ℕ) × (session.service ≡ Workers count)
        × (count ≤ most_workers) }
    ensures service { result.session.service ≡ session.service }
    ensures bytes_written { BytesWritten L.lang result.status (K.contents sink)
        (K.contents result.sink) result.session }
    ensures bytes_sent { BytesSent L.lang result.status (K.contents sink)
        (K.contents result.sink) result.session }
    ensures lost { LosesOnly L.lang result.status result.session }
    ensures one_legal_history { OneLegalHistory L.lang result.status result.session }
    ensures messages_read { MessagesRead result.status (S.left source) (S.left result.source)
        result.session }
    ensures free { result.status ≡ Status.Done → NobodyHolds L.lang result.session }
    ensures read_fault { result.status ≡ Status.ReadFault
        → Rose (S.faults source) (S.faults result.source) }
    ensures write_fault { result.status ≡ Status.WriteFault
        → Rose (K.faults sink) (K.faults result.sink) }
    ensures bad_frame { (at : ℕ) → result.status ≡ Status.BadFrame at
        → BadFrameSo at (S.left source) (S.left result.source) }
    ensures truncated { (at : ℕ) → result.status ≡ Status.Truncated at
        → TruncatedSo at (S.left source) (S.left result.source) }
    ensures long_input { LongSo limit result.status (S.left source) (S.left result.source) }
    ensures done { result.status ≡ Status.Done
        → DoneSo (S.left source) (S.left result.source) }
    ensures not_usage { result.status ≢ Status.Usage }
    ensures no_text { (at : ℕ) → result.status ≢ Status.BadText at }
    ensures no_reply { (len : ℕ) → result.status ≢ Status.BadReply len }
    ensures complete { CompleteSo limit (S.left source) (S.faults source)
        (S.faults result.source) (K.faults sink) (K.faults result.sink) result.status }
{
    let count = worker_count(&session);
    let crew = Crew { alloc, lang };
    let Ok(passes) = Vec::with_capacity(alloc, count as usize) else {
        return unbegun(source, sink, session);
    };
    match Shared::new(alloc, Locked::new(session)) {
        Ok((lock, reader)) => run(
            rt, &crew, lock, reader, passes, count, gate, source, limit, sink,
        ),
        Err(AllocFailed { value }) => unbegun(source, sink, value.into_session()),
    }
}
