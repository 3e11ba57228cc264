//! Runs of exchanges.
ghost use Rattle.std.specs.Prelude.{◌≡◌, ◌⊎◌, ◌<◌, ℕ, List, Some, true, false, length};
ghost use Rattle.byte_message.specs.Stream.Ending.{Whole};
ghost use Rattle.message_input.specs.Causes.{HasEnding};
ghost use Rattle.pide_program.specs.Limit.{input_limit};
ghost use Rattle.pide_program.specs.Words.{is_mirror, is_served};

use crate::exchange::{Exchange, Hold};
use crate::gates::{Progress, SixPoints};
use crate::history::{History, history_of};
use crate::removal::{CountingSink, HeldSource, Removal};
use crate::slow_sink::SlowSink;
use document_serve::{Served, serve};
use document_session::Session;
use joined_results::both;
use pide_base::{Gate, Sink, Source, Status};
use pide_io::{HoldGate, LetGo, MemSink, MemSource, NoGate};
use pide_program::{Outcome, pide};
use reply_outbox::{Item, Kept};
use session_rules::{Entry, Service};
use std::alloc::{AllocError, Global};
use std::sync::Wait;
use std::thread::Threads;
use toplevel::Isar;

/// The list of what has happened.
type Past = Kept<Service, Entry>;

/// A session, or the list that it would have kept where none was begun.
type Begun = Result<Session<Isar, Past>, Past>;

/// The most looks of a gate.
const LOOKS: u64 = 10_000_000;

/// What a run comes to.
#[derive(Drop)]
pub(crate) struct Ran {
    pub(crate) status: Status,
    pub(crate) sink: MemSink,
    pub(crate) history: History,
    /// How many calls of the source and of the sink failed.
    pub(crate) pulls: u64,
    pub(crate) pushes: u64,
    /// How the hold of a worker ended, where one was to be held.
    pub(crate) let_go: Option<&'static str>,
}

/// Runs an exchange in which a pull gives so many bytes at most.
pub(crate) fn run<R: Threads + Wait + Sync>(
    rt: &R,
    alloc: Global,
    exchange: &Exchange,
    piece: usize,
) -> Result<Ran, AllocError> {
    let (source, sink) = both(
        source_of(alloc, exchange, piece.max(1)),
        sink_of(alloc, exchange),
    )?;
    match exchange.limit {
        Some(limit) => run_within(alloc, source, sink, limit),
        None => run_held(rt, alloc, exchange, source, sink),
    }
}

/// The source of the exchange.
fn source_of(alloc: Global, exchange: &Exchange, piece: usize) -> Result<MemSource, AllocError>
    requires { 0 < piece }
{
    let fails = Vec::from_slice(alloc, &[exchange.failing_pull])?;
    let bytes = Vec::from_slice(alloc, exchange.sent.as_slice())?;
    Ok(MemSource::new(bytes, piece, fails))
}

/// The sink of the exchange.
fn sink_of(alloc: Global, exchange: &Exchange) -> Result<MemSink, AllocError> {
    let fails = Vec::from_slice(alloc, &[exchange.failing_push])?;
    match MemSink::new(alloc, exchange.room, fails) {
        Ok(sink) => Ok(sink),
        Err(_) => Err(AllocError),
    }
}

/// The words that stand in a line.
fn words_of(alloc: Global, line: &str) -> Result<Vec<&str>, AllocError> {
    let mut words = Vec::new(alloc);
    for word in line.split(' ') {
        if !word.is_empty() {
            words.push(word)?;
        }
    }
    Ok(words)
}

/// Runs the program of the exchange, with workers held as it tells.
fn run_held<R: Threads + Wait + Sync>(
    rt: &R,
    alloc: Global,
    exchange: &Exchange,
    source: MemSource,
    sink: MemSink,
) -> Result<Ran, AllocError> {
    let line = exchange.words.as_str();
    match exchange.hold {
        Hold::Nobody => run_freely(rt, alloc, line, source, sink, &NoGate),
        Hold::AtClaim(worker) => {
            let gate = HoldGate::new(worker, LOOKS);
            let ran = run_freely(rt, alloc, line, source, sink, &gate);
            held_so(ran, name_of(gate.let_go()))
        }
        Hold::WhenAsked => {
            let gate = SixPoints::new(LOOKS);
            let ran = run_freely(rt, alloc, line, source, sink, &gate);
            held_so(ran, gate.let_go())
        }
        Hold::ForPush => run_slowly(rt, alloc, line, source, sink),
        Hold::UntilRemoved => run_removed(rt, alloc, line, source, sink),
    }
}

/// The name of how a hold ended.
fn name_of(let_go: LetGo) -> &'static str {
    match let_go {
        LetGo::NotHeld => "NotHeld",
        LetGo::ByLimit => "ByLimit",
        LetGo::ByOther => "ByOther",
    }
}

/// The run, in which a hold of a worker ended so.
fn held_so(ran: Result<Ran, AllocError>, let_go: &'static str) -> Result<Ran, AllocError> {
    let mut ran = ran?;
    ran.let_go = Some(let_go);
    Ok(ran)
}

/// Runs the program on the words of a line. Where they ask to serve or to replay, the bytes end
/// between messages and are fewer than the limit, and no call has failed before or in the run, it is
/// done, or memory is short.
fn watched<R: Threads + Wait + Sync, S: Source + Drop, K: Sink + Send + Drop, G: Gate + Sync>(
    rt: &R,
    alloc: Global,
    words: &[&str],
    source: S,
    sink: K,
    gate: &G,
) -> Outcome<S, K, Past>
    ensures whole { is_served words.now ≡ true → is_mirror words.now ≡ false
        → (bytes : List ℕ) → S.left source ≡ Some bytes → HasEnding bytes Whole
        → length bytes < input_limit → S.faults source ≡ 0 → K.faults sink ≡ 0
        → S.faults result.source ≡ 0 → K.faults result.sink ≡ 0
        → (result.status ≡ Status.Done) ⊎ (result.status ≡ Status.NoMemory) }
{
    pide(rt, alloc, words, source, sink, gate, Kept::new(alloc))
}

/// Runs the program on the words of a line.
fn run_program<R: Threads + Wait + Sync, S: Source + Drop, K: Sink + Send + Drop, G: Gate + Sync>(
    rt: &R,
    alloc: Global,
    line: &str,
    source: S,
    sink: K,
    gate: &G,
) -> Result<Outcome<S, K, Past>, AllocError> {
    match words_of(alloc, line) {
        Ok(words) => Ok(watched(rt, alloc, words.as_slice(), source, sink, gate)),
        Err(_) => Err(AllocError),
    }
}

/// Runs the program on the words of a line, and nothing else.
fn run_freely<R: Threads + Wait + Sync, G: Gate + Sync>(
    rt: &R,
    alloc: Global,
    line: &str,
    source: MemSource,
    sink: MemSink,
    gate: &G,
) -> Result<Ran, AllocError> {
    let Outcome {
        status,
        source,
        sink,
        session,
    } = run_program(rt, alloc, line, source, sink, gate)?;
    ran_of(alloc, status, source, sink, session)
}

/// Runs the program on the words of a line, with a first push that waits until a worker has finished
/// a part.
fn run_slowly<R: Threads + Wait + Sync>(
    rt: &R,
    alloc: Global,
    line: &str,
    source: MemSource,
    sink: MemSink,
) -> Result<Ran, AllocError> {
    let progress = Progress::new();
    let slow = SlowSink {
        sink,
        progress: &progress,
        looks: LOOKS,
        waited: None,
    };
    let Outcome {
        status,
        source,
        sink,
        session,
    } = run_program(rt, alloc, line, source, slow, &progress)?;
    let SlowSink { sink, waited, .. } = sink;
    let let_go = match waited {
        None => "NotHeld",
        Some(true) => "ByOther",
        Some(false) => "ByLimit",
    };
    held_so(ran_of(alloc, status, source, sink, session), let_go)
}

/// Runs the program on the words of a line, with a worker that is held until its part isn't wanted.
fn run_removed<R: Threads + Wait + Sync>(
    rt: &R,
    alloc: Global,
    line: &str,
    source: MemSource,
    sink: MemSink,
) -> Result<Ran, AllocError> {
    let removal = Removal::new(LOOKS);
    let source = HeldSource {
        source,
        removal: &removal,
        pulls: 0,
    };
    let sink = CountingSink {
        sink,
        removal: &removal,
    };
    let Outcome {
        status,
        source,
        sink,
        session,
    } = run_program(rt, alloc, line, source, sink, &removal)?;
    let ran = ran_of(alloc, status, source.source, sink.sink, session);
    held_so(ran, removal.let_go())
}

/// Serves the source, of which so many bytes may be taken, in a session in which nothing happened.
fn run_within(
    alloc: Global,
    source: MemSource,
    sink: MemSink,
    limit: usize,
) -> Result<Ran, AllocError> {
    let mut source = source;
    let service = Service::Workers { count: 0 };
    match Session::new(alloc, service, Past::new(alloc)) {
        Ok(session) => {
            let Served {
                status,
                session,
                sink,
            } = serve(alloc, &Isar, &mut source, sink, session, limit);
            ran_of(alloc, status, source, sink, Ok(session))
        }
        Err(_) => Err(AllocError),
    }
}

/// What a run comes to that ended so.
fn ran_of(
    alloc: Global,
    status: Status,
    source: MemSource,
    sink: MemSink,
    session: Begun,
) -> Result<Ran, AllocError> {
    let history = past_of(alloc, session);
    let pulls = source.faults();
    drop(source);
    let pushes = sink.faults();
    Ok(Ran {
        status,
        history: history?,
        sink,
        pulls,
        pushes,
        let_go: None,
    })
}

/// What has happened in a session: nothing where none was begun.
fn past_of(alloc: Global, session: Begun) -> Result<History, AllocError> {
    let items: &[Item<Service, Entry>] = match &session {
        Ok(session) => session.past().as_slice(),
        Err(_) => &[],
    };
    let history = history_of(alloc, items);
    drop(session);
    history
}
