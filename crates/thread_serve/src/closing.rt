//! How the session is taken out, once all have stopped.
ghost use Rattle.std.specs.Prelude.{◌≡◌, ◌+◌, [], ◌∷◌, false, vec_len, IfOk, IfErr};
ghost use mathlib.Core.List.{IsPrefix};
ghost use Rattle.hist_lock.specs.Callers.{HasJoinedUpTo, KeepsJoined};
ghost use Rattle.hist_lock.specs.Passes.{view, IsPassOf};
ghost use Rattle.reply_outbox.specs.declared.item.Item.TheVariants.{Opened};
ghost use Rattle.session_rules.specs.declared.service.Service.TheVariants.{Workers};
ghost use Rattle.worker_loop.specs.Crew.{AreBack, AreWorkers, HasGathered, HoldNothing};
ghost use Rattle.view_laws.specs.Says.{says};
ghost use Rattle.thread_serve.specs.Closed.{IsClosed, WorkersAreFree};

use crate::crew::Crew;
use crate::locked::Locked;
use crate::working::Workers;
use document_session::Session;
use hist_lock::{Pass, Shared};
use language::Language;
use reply_outbox::Past;
use session_rules::{Entry, Service};
use std::alloc::AllocFailed;
use worker_loop::{gather, gather_idle};

/// A session that nobody shares any more.
#[derive(Drop)]
pub(crate) struct Closed<L: Language, P: Past<Service, Entry>> {
    pub(crate) session: Session<L, P>,
    /// Whether memory was short for a worker.
    pub(crate) is_short: bool,
}

/// Joins the workers' passes into the reader's, and tells whether memory was short for one of them.
fn gather_workers<L: Language, P: Past<Service, Entry> + Drop>(
    lock: &Shared<Locked<L, P>>,
    reader: &mut Pass<Locked<L, P>>,
    workers: Workers<Locked<L, P>>,
    count: u32,
) -> bool
    requires own { IsPassOf lock.now reader.old }
    requires back { IfOk workers (λ shifts. AreBack says lock.now 1 shifts.items
        × (vec_len shifts ≡ count)) }
    requires idle { IfErr workers (λ failed. AreWorkers says lock.now 1 failed.value.items
        × (vec_len failed.value ≡ count)) }
    ensures own { IsPassOf lock.now reader.new }
    ensures seen { IsPrefix (view reader.old).seen (view reader.new).seen }
    ensures gathered { HasGathered (view reader.old) (view reader.new) }
    ensures joined { HasJoinedUpTo 0 count (view reader.new) }
    ensures free { result ≡ false → HoldNothing says 0 count (view reader.new) }
{
    match workers {
        Ok(shifts) => gather::<Locked<L, P>, Crew<'_, L>>(lock, reader, shifts),
        Err(AllocFailed { value }) => {
            gather_idle::<Locked<L, P>, Crew<'_, L>>(lock, reader, value);
            true
        }
    }
}

/// Joins all passes into the reader's, and takes the session out.
pub(crate) fn close<L: Language, P: Past<Service, Entry> + Drop>(
    lock: Shared<Locked<L, P>>,
    reader: Pass<Locked<L, P>>,
    workers: Workers<Locked<L, P>>,
    writer: Pass<Locked<L, P>>,
    count: u32,
) -> Closed<L, P>
    requires own { IsPassOf lock reader × IsPassOf lock writer }
    requires reader { (view reader).caller ≡ 0 }
    requires made { (view reader).made ≡ count + 1 }
    requires opened { IsPrefix (Opened (Workers count) ∷ []) (view reader).mine }
    requires writer { (view writer).caller ≡ count + 1 }
    requires back { IfOk workers (λ shifts. AreBack says lock 1 shifts.items
        × (vec_len shifts ≡ count)) }
    requires idle { IfErr workers (λ failed. AreWorkers says lock 1 failed.value.items
        × (vec_len failed.value ≡ count)) }
    ensures closed { IsClosed L.lang count (view reader) (view writer) result.session }
    ensures free { result.is_short ≡ false → WorkersAreFree count result.session }
{
    let mut reader = reader;
    let is_short = gather_workers(&lock, &mut reader, workers, count);
    lock.join(&mut reader, writer);
    Closed {
        session: lock.close(reader).into_session(),
        is_short,
    }
}
