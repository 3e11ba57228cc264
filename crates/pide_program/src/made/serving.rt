//! A session over memory that has answered the messages.
ghost use Rattle.std.specs.Prelude.{◌≡◌, ◌≤◌, ◌∷◌, [], ℕ, IfOk, Ok};
ghost use Rattle.reply_outbox.specs.declared.item.Item.TheVariants.{Opened};
ghost use Rattle.message_values.specs.Workers.{most_workers};
ghost use Rattle.session_rules.specs.Services.{free_workers};
ghost use Rattle.session_rules.specs.declared.service.Service.TheVariants.{Workers};
ghost use Rattle.made_document.specs.Texts.{most_nodes};
ghost use Rattle.pide_program.specs.Answered.{Answered, Made};

use crate::made::swallow::Swallow;
use crate::running::LIMIT;
use byte_message::one_reading;
use language::Language;
use made_document::made_bytes;
use pide_base::{Gate, Status};
use pide_io::MemSource;
use reply_outbox::Unkept;
use session_rules::{Entry, Service};
use std::alloc::{AllocError, Global};
use std::sync::Wait;
use std::thread::Threads;
use thread_serve::document_serve_below::Served;
use thread_serve::document_session_below::Session;

/// The list of what happens, which nobody reads.
pub(crate) type List = Unkept<Service, Entry>;

/// The most bytes that a pull brings.
const PIECE: usize = 65_536;

/// The session, where the run was done. The source and the sink are over memory, and never fail, so
/// that else memory was short.
fn done<L: Language>(
    status: Status,
    session: Session<L, List>,
) -> Result<Session<L, List>, AllocError>
    ensures status { IfOk result (λ s. status ≡ Status.Done) }
    ensures session { IfOk result (λ s. s ≡ session) }
{
    match status {
        Status::Done => Ok(session),
        _ => Err(AllocError),
    }
}

/// Has the messages of the source answered on this thread alone.
fn alone<L: Language>(
    alloc: Global,
    lang: &L,
    source: MemSource,
    session: Session<L, List>,
) -> Result<Session<L, List>, AllocError>
    requires new { session.items ≡ Opened session.service ∷ [] }
    requires alone { free_workers session.service ≡ 0 }
    ensures { IfOk result (λ s. Answered L.lang session.service source.left s) }
{
    let mut source = source;
    let Served {
        status,
        session,
        sink: _,
    } = thread_serve::document_serve_below::serve(
        alloc,
        lang,
        &mut source,
        Swallow {},
        session,
        LIMIT,
    );
    done(status, session)
}

/// Has them answered beside workers in threads of their own.
fn beside<L: Language + Send + Sync, R: Threads + Wait + Sync, G: Gate + Sync>(
    rt: &R,
    alloc: Global,
    lang: &L,
    source: MemSource,
    session: Session<L, List>,
    gate: &G,
) -> Result<Session<L, List>, AllocError>
where
    L::State: Send + Sync,
    requires new { session.items ≡ Opened session.service ∷ [] }
    requires workers { (count : ℕ) × (session.service ≡ Workers count)
        × (count ≤ most_workers) }
    ensures { IfOk result (λ s. Answered L.lang session.service source.left s) }
{
    let served = thread_serve::serve(rt, alloc, lang, source, Swallow {}, session, gate, LIMIT);
    done(served.status, served.session)
}

/// A session that has answered the messages that make a document of so many nodes, beside so many
/// workers.
pub(crate) fn made<L: Language + Send + Sync, R: Threads + Wait + Sync, G: Gate + Sync>(
    rt: &R,
    alloc: Global,
    lang: &L,
    count: u32,
    workers: u32,
    gate: &G,
) -> Result<Session<L, List>, AllocError>
where
    L::State: Send + Sync,
    requires few { count ≤ most_nodes }
    requires workers { workers ≤ most_workers }
    ensures { IfOk result (λ s. Made L.lang count workers s) }
{
    one_reading();
    let bytes = made_bytes(alloc, count)?;
    let source = MemSource::new(bytes, PIECE, Vec::new(alloc));
    let service = Service::Workers { count: workers };
    let Ok(session) = Session::new(alloc, service, Unkept::new()) else {
        return Err(AllocError);
    };
    if workers == 0 {
        alone(alloc, lang, source, session)
    } else {
        beside(rt, alloc, lang, source, session, gate)
    }
}
