//! From the number of nodes to the lines.
ghost use Rattle.std.specs.Prelude.{◌≡◌, ◌≤◌, ◌⊎◌, IfOk, string_bytes};
ghost use Rattle.pide_base.specs.Faults.{Rose};
ghost use Rattle.message_values.specs.Workers.{most_workers};
ghost use Rattle.made_document.specs.Texts.{most_nodes};
ghost use Rattle.made_document.specs.Summary.{summary_lines};
ghost use Rattle.pide_program.specs.Generated.{IsGenerated};

use crate::made::counting::summary_of;
use crate::made::serving::made;
use language::Language;
use pide_base::{Gate, Sink, Status, push_whole};
use std::alloc::{AllocError, Global};
use std::sync::Wait;
use std::thread::Threads;

/// The lines of the summary.
fn lines<L: Language + Send + Sync, R: Threads + Wait + Sync, G: Gate + Sync>(
    rt: &R,
    alloc: Global,
    lang: &L,
    count: u32,
    workers: u32,
    gate: &G,
) -> Result<String, AllocError>
where
    L::State: Send + Sync,
    requires few { count ≤ most_nodes }
    requires workers { workers ≤ most_workers }
    ensures { IfOk result (λ text. string_bytes text ≡ summary_lines L.lang count) }
{
    let session = made(rt, alloc, lang, count, workers, gate)?;
    let summary = summary_of(&session);
    drop(session);
    match summary? {
        Some(summary) => summary.lines(alloc),
        None => Ok(String::new(alloc)),
    }
}

/// Makes a document of so many nodes, 1 to 1,000, by messages that a session answers beside so many
/// workers, 0 to 16, and writes the lines of its summary: the same for every number of workers.
///
/// All of them are written where the answer is `Done`; a front of them where the sink failed, which
/// is WriteFault, or memory was short. There is no other status.
pub fn generate<L: Language + Send + Sync, R: Threads + Wait + Sync, K: Sink, G: Gate + Sync>(
    rt: &R,
    alloc: Global,
    lang: &L,
    count: u32,
    workers: u32,
    sink: &mut K,
    gate: &G,
) -> Status
where
    L::State: Send + Sync,
    requires few { count ≤ most_nodes }
    requires workers { workers ≤ most_workers }
    ensures generated { IsGenerated L.lang count result (K.contents sink.old)
        (K.contents sink.new) }
    ensures write_fault { result ≡ Status.WriteFault
        → Rose (K.faults sink.old) (K.faults sink.new) }
    ensures complete { (Rose (K.faults sink.old) (K.faults sink.new) → ⊥)
        → (result ≡ Status.Done) ⊎ (result ≡ Status.NoMemory) }
{
    match lines(rt, alloc, lang, count, workers, gate) {
        Ok(text) => {
            if push_whole(sink, text.as_bytes()) {
                Status::Done
            } else {
                Status::WriteFault
            }
        }
        Err(_) => Status::NoMemory,
    }
}
