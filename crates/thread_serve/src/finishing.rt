//! What is left to do once all have stopped.
ghost use Rattle.std.specs.Prelude.{◌≡◌, ℕ, ◌+◌, List, [], ◌∷◌, Option, vec_len, IfOk, IfErr};
ghost use mathlib.Core.List.{IsPrefix};
ghost use Rattle.pide_base.specs.Faults.{Rose};
ghost use Rattle.hist_lock.specs.Passes.{view, IsPassOf};
ghost use Rattle.worker_loop.specs.Crew.{AreBack, AreWorkers};
ghost use Rattle.worker_loop.specs.Sending.{AreSent};
ghost use Rattle.worker_loop.specs.declared.writer.Written.TheVariants.{Ended};
ghost use Rattle.reply_outbox.specs.declared.item.Item.TheVariants.{Opened};
ghost use Rattle.session_rules.specs.declared.service.Service.TheVariants.{Workers};
ghost use Rattle.view_laws.specs.Says.{says};
ghost use Rattle.thread_serve.specs.Promises.{IsServed};
ghost use Rattle.thread_serve.specs.Stopped.{HasRead, HasWritten};

use crate::closing::{Closed, close};
use crate::laws::run_laws;
use crate::locked::Locked;
use crate::reading::Read;
use crate::rest::write_rest;
use crate::served::Served;
use crate::status::status_of;
use crate::working::Stopped;
use hist_lock::Shared;
use language::Language;
use pide_base::{Sink, Source, Status};
use reply_outbox::Past;
use session_rules::{Entry, Service};
use worker_loop::Wrote;

/// Takes the session out, writes the replies that are left, and tells how the run ended.
pub(crate) fn finish<L: Language, P: Past<Service, Entry> + Drop, S: Source, K: Sink>(
    lock: Shared<Locked<L, P>>,
    stopped: Stopped<Locked<L, P>, K>,
    read: Read<Locked<L, P>, S>,
    count: u32,
) -> Served<L, P, S, K>
    requires own { IsPassOf lock read.pass × IsPassOf lock stopped.wrote.pass }
    requires reader { (view read.pass).caller ≡ 0 }
    requires writer { (view stopped.wrote.pass).caller ≡ count + 1 }
    requires sent { stopped.wrote.written ≡ Ended
        → AreSent says (view stopped.wrote.pass).mine }
    requires made { (view read.pass).made ≡ count + 1 }
    requires opened { IsPrefix (Opened (Workers count) ∷ []) (view read.pass).mine }
    requires back { IfOk stopped.workers (λ shifts. AreBack says lock 1 shifts.items
        × (vec_len shifts ≡ count)) }
    requires idle { IfErr stopped.workers (λ failed. AreWorkers says lock 1
        failed.value.items × (vec_len failed.value ≡ count)) }
    ensures service { result.session.service ≡ Workers count }
    ensures source { result.source ≡ read.source }
    ensures served { (limit : ℕ) (left held : Option (List ℕ)) (faults : ℕ)
        → HasRead limit read.status left (S.left read.source) (view read.pass)
        → HasWritten L.lang (count + 1) (record { contents = held; faults = faults })
        stopped.wrote.written (view stopped.wrote.pass)
        (record {
          contents = K.contents stopped.wrote.sink;
          faults = K.faults stopped.wrote.sink;
        })
        → IsServed L.lang limit result.status left (S.left result.source) held
        (K.contents result.sink) result.session
        × (result.status ≡ Status.WriteFault → Rose faults (K.faults result.sink)) }
    ensures read_fault { result.status ≡ Status.ReadFault → read.status ≡ Status.ReadFault }
{
    run_laws::<L>();
    let Stopped { workers, wrote } = stopped;
    let Wrote {
        pass: writer,
        mut sink,
        written,
    } = wrote;
    let Read {
        pass: reader,
        source,
        status,
    } = read;
    let Closed {
        mut session,
        is_short,
    } = close(lock, reader, workers, writer, count);
    let is_lost = write_rest(&mut session, &mut sink, written);
    session.none_due();
    Served {
        status: status_of(is_lost, is_short, status),
        source,
        sink,
        session,
    }
}
