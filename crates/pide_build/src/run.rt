//! A run: the messages of a source, taken to its end, and what is built of them.
ghost use Rattle.std.specs.Prelude.{◌≡◌, ◌≢◌, ◌≤◌, ℕ, OnOk, IfErr};
ghost use Rattle.std.specs.Io.KnownBytes.{Appends};
ghost use Rattle.pide_base.specs.Faults.{Rose};
ghost use Rattle.pide_base.specs.Moves.{AppendsFront};
ghost use Rattle.message_input.specs.Causes.{CompleteSo, HasCause};
ghost use Rattle.message_input.specs.Counts.{CountsSo};
ghost use Rattle.pide_build.specs.Answers.{status_of};
ghost use Rattle.pide_build.specs.Replies.{build_replies};
ghost use Rattle.pide_build.specs.Runs.{IsBuild};

use crate::building::{Built, build};
use crate::documents::nodes_of;
use crate::inbox::Inbox;
use crate::replies::{InReplies, push_replies};
use crate::theories::Theories;
use language::Language;
use message_input::{Halt, answer_input};
use pide_base::{Gate, Sink, Source, Status};
use shared_map::SharedMap;
use std::alloc::Global;
use std::sync::Wait;
use std::thread::Threads;

/// How a build ended, and the sink that it was given, with what was written.
#[derive(Drop)]
pub struct Ended<K> {
    pub status: Status,
    pub sink: K,
}

/// By whom theories are checked: this thread and at most so many others, each of which a gate is
/// told of.
#[derive(Clone, Copy)]
struct Crew<'a, G> {
    workers: u32,
    gate: &'a G,
}

/// Builds the theories, and writes the replies. Where it halts, a front of them is written.
fn build_all<L: Language + Sync, G: Gate + Sync, K: Sink, R: Threads + Wait + Sync>(
    rt: &R,
    alloc: Global,
    language: &L,
    theories: Theories,
    sink: &mut K,
    crew: Crew<'_, G>,
) -> Result<(), Halt>
where
    L::State: Send + Sync,
    ensures ok { OnOk result (Appends (K.contents sink.old) (K.contents sink.new)
        (build_replies L.lang theories)) }
    ensures front { AppendsFront (K.contents sink.old) (K.contents sink.new)
        (build_replies L.lang theories) }
    ensures steady { K.faults sink.old ≤ K.faults sink.new }
    ensures counts { IfErr result (λ halt. CountsSo halt (K.faults sink.old)
        (K.faults sink.new)) }
{
    let nodes = nodes_of(alloc, &theories);
    drop(theories);
    let nodes = nodes?;
    let built = build(
        rt,
        alloc,
        language,
        &InReplies,
        &nodes,
        crew.workers,
        crew.gate,
    );
    drop(nodes);
    let Built {
        nodes: replies,
        taken,
    } = built?;
    drop(taken);
    push_replies(alloc, sink, &replies)
}

/// The status of a build that came to this.
fn status_of(built: Result<(), Halt>) -> Status
    ensures { result ≡ status_of built }
{
    match built {
        Ok(()) => Status::Done,
        Err(Halt::WriteFault) => Status::WriteFault,
        Err(Halt::NoMemory) => Status::NoMemory,
        Err(Halt::BadReply { len }) => Status::BadReply { len },
    }
}

/// Takes the messages of the source, each of which brings a theory, and writes why one is refused;
/// when they have come to their end, checks all theories, each once and after those that it imports,
/// and writes what each reports, in the order of imports, and then how many theories there are, and
/// how many errors. They are checked in this thread and in at most so many others. At most `limit`
/// bytes are taken.
///
/// The status is WriteFault where the sink failed, and NoMemory where memory was short; else it
/// tells how the input ended: Done, Truncated, BadFrame, LongInput or ReadFault.
pub fn build_theories<
    L: Language + Sync,
    S: Source,
    K: Sink,
    G: Gate + Sync,
    R: Threads + Wait + Sync,
>(
    rt: &R,
    alloc: Global,
    language: &L,
    source: &mut S,
    sink: K,
    workers: u32,
    gate: &G,
    limit: usize,
) -> Ended<K>
where
    L::State: Send + Sync,
    ensures built { IsBuild L.lang result.status (S.left source.old) (S.left source.new)
        (K.contents sink) (K.contents result.sink) }
    ensures causes { HasCause limit result.status (S.left source.old) (S.left source.new) }
    ensures read_fault { result.status ≡ Status.ReadFault
        → Rose (S.faults source.old) (S.faults source.new) }
    ensures write_fault { result.status ≡ Status.WriteFault
        → Rose (K.faults sink) (K.faults result.sink) }
    ensures no_reply { (len : ℕ) → result.status ≢ Status.BadReply len }
    ensures complete { CompleteSo limit (S.left source.old) (S.faults source.old)
        (S.faults source.new) (K.faults sink) (K.faults result.sink) result.status }
{
    let theories = SharedMap::new();
    let mut inbox = Inbox {
        alloc,
        theories,
        sink,
    };
    let status = answer_input(alloc, &mut inbox, source, limit);
    let Inbox {
        alloc: _,
        theories,
        mut sink,
    } = inbox;
    match status {
        Status::Done => {
            let crew = Crew { workers, gate };
            let built = build_all(rt, alloc, language, theories, &mut sink, crew);
            let status = status_of(built);
            Ended { status, sink }
        }
        _ => {
            drop(theories);
            Ended { status, sink }
        }
    }
}
