//! A run: the messages of a source, served to its end.
ghost use Rattle.std.specs.Prelude.{◌≡◌, ◌≢◌, ◌∷◌, ℕ, []};
ghost use Rattle.pide_base.specs.Faults.{Rose};
ghost use Rattle.reply_outbox.specs.declared.item.Item.TheVariants.{Opened};
ghost use Rattle.session_rules.specs.Services.{free_workers};
ghost use Rattle.message_input.specs.Causes.{BadFrameSo, CompleteSo, DoneSo, LongSo, TruncatedSo};
ghost use Rattle.document_serve.specs.Headline.{BytesSent, BytesWritten, IsRun, LosesSo, MadeAlone, MessagesRead, OneLegalHistory};

use crate::alone::Alone;
use crate::laws::list_laws;
use crate::served::Served;
use document_session::Session;
use language::Language;
use message_input::answer_input;
use pide_base::{Sink, Source, Status};
use reply_outbox::Past;
use session_rules::{Entry, Service};
use std::alloc::Global;

/// Has the messages of the source answered alone, to the source's end.
fn serve_alone<L: Language, P: Past<Service, Entry> + Drop, S: Source, K: Sink>(
    alone: Alone<'_, L, P, K>,
    source: &mut S,
    limit: usize,
) -> Served<L, P, K>
    requires new { alone.session.items ≡ Opened alone.session.service ∷ [] }
    requires alone { free_workers alone.session.service ≡ 0 }
    ensures service { result.session.service ≡ alone.entry.session.service }
    ensures run { IsRun L.lang limit result.status (S.left source.old) (S.left source.new)
        (K.contents alone.entry.sink) (K.contents result.sink) result.session }
    ensures read_fault { result.status ≡ Status.ReadFault
        → Rose (S.faults source.old) (S.faults source.new) }
    ensures write_fault { result.status ≡ Status.WriteFault
        → Rose (K.faults alone.entry.sink) (K.faults result.sink) }
    ensures no_reply { (len : ℕ) → result.status ≢ Status.BadReply len }
{
    list_laws::<L>();
    let mut alone = alone;
    let status = answer_input(alone.alloc, &mut alone, source, limit);
    let Alone {
        alloc: _,
        lang: _,
        session,
        sink,
    } = alone;
    session.none_due();
    Served {
        status,
        session,
        sink,
    }
}

/// Serves the messages of the source on one thread, each when it is whole, and writes the replies
/// before more is read. The session must be new, and nobody works beside the reader. At most
/// `limit` bytes are taken.
///
/// The status is WriteFault where the sink failed, and NoMemory where memory was short; else it
/// tells how the input ended: Done, Truncated, BadFrame, LongInput or ReadFault.
pub fn serve<L: Language, P: Past<Service, Entry> + Drop, S: Source, K: Sink>(
    alloc: Global,
    lang: &L,
    source: &mut S,
    sink: K,
    session: Session<L, P>,
    limit: usize,
) -> Served<L, P, K>
    requires new { session.items ≡ Opened session.service ∷ [] }
    requires alone { free_workers session.service ≡ 0 }
    ensures service { result.session.service ≡ session.service }
    ensures bytes_written { BytesWritten L.lang result.status (K.contents sink)
        (K.contents result.sink) result.session }
    ensures bytes_sent { BytesSent L.lang result.status (K.contents sink)
        (K.contents result.sink) result.session }
    ensures lost { LosesSo L.lang result.status result.session }
    ensures one_legal_history { OneLegalHistory L.lang result.status result.session }
    ensures messages_read { MessagesRead result.status (S.left source.old) (S.left source.new)
        result.session }
    ensures alone { MadeAlone L.lang result.status (S.left source.old) (S.left source.new)
        result.session }
    ensures read_fault { result.status ≡ Status.ReadFault
        → Rose (S.faults source.old) (S.faults source.new) }
    ensures write_fault { result.status ≡ Status.WriteFault
        → Rose (K.faults sink) (K.faults result.sink) }
    ensures bad_frame { (at : ℕ) → result.status ≡ Status.BadFrame at
        → BadFrameSo at (S.left source.old) (S.left source.new) }
    ensures truncated { (at : ℕ) → result.status ≡ Status.Truncated at
        → TruncatedSo at (S.left source.old) (S.left source.new) }
    ensures long_input { LongSo limit result.status (S.left source.old) (S.left source.new) }
    ensures done { result.status ≡ Status.Done → DoneSo (S.left source.old) (S.left source.new) }
    ensures not_usage { result.status ≢ Status.Usage }
    ensures no_text { (at : ℕ) → result.status ≢ Status.BadText at }
    ensures no_reply { (len : ℕ) → result.status ≢ Status.BadReply len }
    ensures complete { CompleteSo limit (S.left source.old) (S.faults source.old)
        (S.faults source.new) (K.faults sink) (K.faults result.sink) result.status }
{
    let alone = Alone {
        alloc,
        lang,
        session,
        sink,
    };
    serve_alone(alone, source, limit)
}
