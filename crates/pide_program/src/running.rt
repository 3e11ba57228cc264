//! What each command of the command line runs.
ghost use Rattle.std.specs.Prelude.{◌≡◌, ◌≢◌, ◌≤◌, ◌⊎◌, ℕ, [], Err, IsOk, IsErr, IfOk, IfErr};
ghost use Rattle.pide_base.specs.Faults.{Rose};
ghost use Rattle.pide_check.specs.Checked.{ChecksWhole, IsChecked};
ghost use Rattle.message_input.specs.Causes.{CompleteSo, HasCause};
ghost use Rattle.pide_build.specs.Runs.{IsBuild};
ghost use Rattle.pide_program.specs.Generated.{IsGenerated};
ghost use Rattle.isar_rules.specs.Isar.{isar};
ghost use Rattle.made_document.specs.Texts.{most_nodes};
ghost use Rattle.mirror_serve.specs.LongReplies.{HasShortReplies, LongSoFar};
ghost use Rattle.message_values.specs.Workers.{most_workers};
ghost use Rattle.session_rules.specs.Services.{free_workers};
ghost use Rattle.session_rules.specs.declared.service.Service.TheVariants.{Workers};
ghost use Rattle.pide_program.specs.Headline.{Headline};
ghost use Rattle.pide_program.specs.Limit.{input_limit};

use crate::made::generate;
use crate::outcome::Outcome;
use editor_laws::isar_law;
use message_values::Mode;
use pide_base::{Gate, Sink, Source, Status};
use pide_build::{Ended, build_theories};
use pide_check::check_text;
use pide_mirror::Mirror;
use reply_outbox::Past;
use session_rules::{Entry, Service, headline_law, holders_law};
use std::alloc::{AllocFailed, Global};
use std::sync::Wait;
use std::thread::Threads;
use thread_serve::document_serve_below::{Served, serve};
use thread_serve::document_session_below::Session;
use toplevel::Isar;

/// The most bytes that a run takes.
pub(crate) const LIMIT: usize = 1 << 40;

/// The most nodes of a document that is made.
pub(crate) const MOST_NODES: u32 = 1_000;

/// No session is begun, and nothing is read or written.
pub(crate) fn unserved<S, K, P: Past<Service, Entry>>(
    status: Status,
    source: S,
    sink: K,
    past: P,
) -> Outcome<S, K, P>
    ensures status { result.status ≡ status }
    ensures source { result.source ≡ source }
    ensures sink { result.sink ≡ sink }
    ensures session { result.session ≡ Err past }
{
    Outcome {
        status,
        source,
        sink,
        session: Err(past),
    }
}

/// Serves the messages of the source so, on one thread. No session is begun where there is no
/// memory for one.
pub(crate) fn serve_alone<S: Source, K: Sink, P: Past<Service, Entry> + Drop>(
    alloc: Global,
    service: Service,
    source: S,
    sink: K,
    past: P,
) -> Outcome<S, K, P>
    requires empty { P.items past ≡ [] }
    requires alone { free_workers service ≡ 0 }
    ensures headline { IfOk result.session (λ s. Headline result.status (S.left source)
        (S.left result.source) (K.contents sink) (K.contents result.sink) s) }
    ensures service { IfOk result.session (λ s. s.service ≡ service) }
    ensures begun { IsOk result.session ⊎ (result.status ≡ Status.NoMemory) }
    ensures handed_back { IfErr result.session (λ list. P.items list ≡ []) }
    ensures unbegun { IsErr result.session → (result.source ≡ source) × (result.sink ≡ sink) }
    ensures read_fault { result.status ≡ Status.ReadFault
        → Rose (S.faults source) (S.faults result.source) }
    ensures write_fault { result.status ≡ Status.WriteFault
        → Rose (K.faults sink) (K.faults result.sink) }
    ensures no_reply { (len : ℕ) → result.status ≢ Status.BadReply len }
    ensures complete { CompleteSo input_limit (S.left source) (S.faults source)
        (S.faults result.source) (K.faults sink) (K.faults result.sink) result.status }
{
    headline_law::<Isar>();
    holders_law::<Isar>();
    let mut source = source;
    let session = match Session::<Isar, P>::new(alloc, service, past) {
        Ok(session) => session,
        Err(AllocFailed { value }) => return unserved(Status::NoMemory, source, sink, value),
    };
    let Served {
        status,
        session,
        sink,
    } = serve(alloc, &Isar, &mut source, sink, session, LIMIT);
    Outcome {
        status,
        source,
        sink,
        session: Ok(session),
    }
}

/// Serves the messages of the source on one thread, with an editor's mirror that answers snapshots.
/// No session is begun where there is no memory for one, or for the mirror.
pub(crate) fn serve_mirrored<S: Source, K: Sink, P: Past<Service, Entry> + Drop>(
    alloc: Global,
    source: S,
    sink: K,
    past: P,
) -> Outcome<S, K, P>
    requires empty { P.items past ≡ [] }
    ensures headline { IfOk result.session (λ s. Headline result.status (S.left source)
        (S.left result.source) (K.contents sink) (K.contents result.sink) s) }
    ensures service { IfOk result.session (λ s. s.service ≡ Workers 0) }
    ensures begun { IsOk result.session ⊎ (result.status ≡ Status.NoMemory) }
    ensures handed_back { IfErr result.session (λ list. P.items list ≡ []) }
    ensures unbegun { IsErr result.session → (result.source ≡ source) × (result.sink ≡ sink) }
    ensures long_replies { IfOk result.session (λ s. LongSoFar isar result.status s) }
    ensures read_fault { result.status ≡ Status.ReadFault
        → Rose (S.faults source) (S.faults result.source) }
    ensures write_fault { result.status ≡ Status.WriteFault
        → Rose (K.faults sink) (K.faults result.sink) }
    ensures complete { IfOk result.session (λ s. HasShortReplies isar s → CompleteSo input_limit
        (S.left source) (S.faults source) (S.faults result.source) (K.faults sink)
        (K.faults result.sink) result.status) }
{
    headline_law::<Isar>();
    holders_law::<Isar>();
    isar_law();
    let mut source = source;
    let Ok(mirror) = Mirror::new(alloc, Mode::Serve) else {
        return unserved(Status::NoMemory, source, sink, past);
    };
    let service = Service::Workers { count: 0 };
    let session = match Session::<Isar, P>::new(alloc, service, past) {
        Ok(session) => session,
        Err(AllocFailed { value }) => {
            drop(mirror);
            return unserved(Status::NoMemory, source, sink, value);
        }
    };
    let Served {
        status,
        session,
        sink,
    } = mirror_serve::serve(alloc, &Isar, &mut source, sink, session, mirror, LIMIT);
    Outcome {
        status,
        source,
        sink,
        session: Ok(session),
    }
}

/// Serves the messages of the source beside so many workers, in threads. No session is begun where
/// there is no memory for one.
pub(crate) fn serve_beside<
    R: Threads + Wait + Sync,
    S: Source + Drop,
    K: Sink + Send + Drop,
    G: Gate + Sync,
    P: Past<Service, Entry> + Drop + Send,
>(rt: &R, alloc: Global, workers: u32, source: S, sink: K, gate: &G, past: P) -> Outcome<S, K, P>
    requires empty { P.items past ≡ [] }
    requires beside { workers ≢ 0 }
    requires few { workers ≤ most_workers }
    ensures headline { IfOk result.session (λ s. Headline result.status (S.left source)
        (S.left result.source) (K.contents sink) (K.contents result.sink) s) }
    ensures service { IfOk result.session (λ s. s.service ≡ Workers workers) }
    ensures begun { IsOk result.session ⊎ (result.status ≡ Status.NoMemory) }
    ensures handed_back { IfErr result.session (λ list. P.items list ≡ []) }
    ensures unbegun { IsErr result.session → (result.source ≡ source) × (result.sink ≡ sink) }
    ensures read_fault { result.status ≡ Status.ReadFault
        → Rose (S.faults source) (S.faults result.source) }
    ensures write_fault { result.status ≡ Status.WriteFault
        → Rose (K.faults sink) (K.faults result.sink) }
    ensures no_reply { (len : ℕ) → result.status ≢ Status.BadReply len }
    ensures complete { CompleteSo input_limit (S.left source) (S.faults source)
        (S.faults result.source) (K.faults sink) (K.faults result.sink) result.status }
{
    headline_law::<Isar>();
    let session = match Session::<Isar, P>::new(alloc, Service::Workers { count: workers }, past) {
        Ok(session) => session,
        Err(AllocFailed { value }) => return unserved(Status::NoMemory, source, sink, value),
    };
    let served = thread_serve::serve(rt, alloc, &Isar, source, sink, session, gate, LIMIT);
    Outcome {
        status: served.status,
        source: served.source,
        sink: served.sink,
        session: Ok(served.session),
    }
}

/// Checks the text of the source. There is no session.
pub(crate) fn check<S: Source, K: Sink, P: Past<Service, Entry>>(
    alloc: Global,
    source: S,
    sink: K,
    past: P,
) -> Outcome<S, K, P>
    ensures checked { IsChecked isar result.status (S.left source) (S.left result.source)
        (K.contents sink) (K.contents result.sink) }
    ensures session { result.session ≡ Err past }
    ensures read_fault { result.status ≡ Status.ReadFault
        → Rose (S.faults source) (S.faults result.source) }
    ensures write_fault { result.status ≡ Status.WriteFault
        → Rose (K.faults sink) (K.faults result.sink) }
    ensures no_reply { (len : ℕ) → result.status ≢ Status.BadReply len }
    ensures complete { ChecksWhole (S.left source) (S.faults source) (S.faults result.source)
        (K.faults sink) (K.faults result.sink) result.status }
{
    let mut source = source;
    let mut sink = sink;
    let status = check_text(alloc, &Isar, &mut source, &mut sink);
    Outcome {
        status,
        source,
        sink,
        session: Err(past),
    }
}

/// Builds the theories that the messages of the source bring, in this thread and in at most so many
/// others. There is no session.
pub(crate) fn build<
    R: Threads + Wait + Sync,
    S: Source,
    K: Sink,
    G: Gate + Sync,
    P: Past<Service, Entry>,
>(rt: &R, alloc: Global, workers: u32, source: S, sink: K, gate: &G, past: P) -> Outcome<S, K, P>
    ensures built { IsBuild isar result.status (S.left source) (S.left result.source)
        (K.contents sink) (K.contents result.sink) }
    ensures causes { HasCause input_limit result.status (S.left source) (S.left result.source) }
    ensures session { result.session ≡ Err past }
    ensures read_fault { result.status ≡ Status.ReadFault
        → Rose (S.faults source) (S.faults result.source) }
    ensures write_fault { result.status ≡ Status.WriteFault
        → Rose (K.faults sink) (K.faults result.sink) }
    ensures no_reply { (len : ℕ) → result.status ≢ Status.BadReply len }
    ensures complete { CompleteSo input_limit (S.left source) (S.faults source)
        (S.faults result.source) (K.faults sink) (K.faults result.sink) result.status }
{
    let mut source = source;
    let Ended { status, sink } = build_theories(
        rt,
        alloc,
        &Isar,
        &mut source,
        sink,
        workers,
        gate,
        LIMIT,
    );
    Outcome {
        status,
        source,
        sink,
        session: Err(past),
    }
}

/// Makes a document of so many nodes beside so many workers, and writes its summary. Nothing is
/// read, and the session that answers its messages is not handed back.
pub(crate) fn make<
    R: Threads + Wait + Sync,
    S: Source,
    K: Sink,
    G: Gate + Sync,
    P: Past<Service, Entry>,
>(
    rt: &R,
    alloc: Global,
    nodes: u32,
    workers: u32,
    source: S,
    sink: K,
    gate: &G,
    past: P,
) -> Outcome<S, K, P>
    requires few { nodes ≤ most_nodes }
    requires workers { workers ≤ most_workers }
    ensures generated { IsGenerated isar nodes result.status (K.contents sink)
        (K.contents result.sink) }
    ensures source { result.source ≡ source }
    ensures session { result.session ≡ Err past }
    ensures write_fault { result.status ≡ Status.WriteFault
        → Rose (K.faults sink) (K.faults result.sink) }
    ensures no_read_fault { result.status ≢ Status.ReadFault }
    ensures no_frame { (at : ℕ) → result.status ≢ Status.BadFrame at }
    ensures not_truncated { (at : ℕ) → result.status ≢ Status.Truncated at }
    ensures no_text { (at : ℕ) → result.status ≢ Status.BadText at }
    ensures not_usage { result.status ≢ Status.Usage }
    ensures no_reply { (len : ℕ) → result.status ≢ Status.BadReply len }
    ensures complete { (Rose (K.faults sink) (K.faults result.sink) → ⊥)
        → (result.status ≡ Status.Done) ⊎ (result.status ≡ Status.NoMemory) }
{
    let mut sink = sink;
    let status = generate(rt, alloc, &Isar, nodes, workers, &mut sink, gate);
    Outcome {
        status,
        source,
        sink,
        session: Err(past),
    }
}
