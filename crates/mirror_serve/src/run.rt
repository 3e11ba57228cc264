//! A run: the messages of a source, served to its end.
ghost use Rattle.std.specs.Prelude.{◌≡◌, ◌≢◌, ◌∷◌, ℕ, [], None};
ghost use Rattle.pide_base.specs.Faults.{Rose};
ghost use Rattle.reply_outbox.specs.declared.item.Item.TheVariants.{Opened};
ghost use Rattle.session_rules.specs.declared.service.Service.TheVariants.{Workers};
ghost use Rattle.message_values.specs.declared.mode.Mode.TheVariants.{Serve};
ghost use Rattle.message_input.specs.Causes.{BadFrameSo, CompleteSo, DoneSo, LongSo, TruncatedSo};
ghost use Rattle.document_serve.specs.Headline.{BytesSent, BytesWritten, IsRun, LosesSo, MadeAlone, MessagesRead, OneLegalHistory};
ghost use Rattle.editor_laws.specs.Tellable.{IsTellable};
ghost use Rattle.pide_mirror.specs.Hearing.{HasHeard};
ghost use Rattle.mirror_serve.specs.LongReplies.{HasShortReplies, LongSoFar};

use crate::ear::Ear;
use crate::laws::hearing_laws;
use crate::mirrored::Mirrored;
use document_serve::Served;
use document_session::Session;
use language::Language;
use message_input::answer_input;
use pide_base::{Sink, Source, Status};
use pide_mirror::Mirror;
use reply_outbox::Past;
use session_rules::{Entry, Service};
use std::alloc::Global;

/// Has the messages of the source answered, to the source's end.
fn serve_mirrored<L: Language, P: Past<Service, Entry> + Drop, S: Source, K: Sink>(
    mirrored: Mirrored<'_, L, P, K>,
    source: &mut S,
    limit: usize,
) -> Served<L, P, K>
    requires new { mirrored.session.items ≡ Opened mirrored.session.service ∷ [] }
    requires alone { mirrored.session.service ≡ Workers 0 }
    requires tellable { IsTellable L.lang }
    requires mode { mirrored.ear.mirror.mode ≡ Serve }
    requires unheard { HasHeard [] mirrored.ear.mirror }
    requires fresh { mirrored.ear.mirror.ended ≡ None }
    requires fine { mirrored.ear.unheard ≡ None }
    ensures service { result.session.service ≡ mirrored.entry.session.service }
    ensures run { IsRun L.lang limit result.status (S.left source.old) (S.left source.new)
        (K.contents mirrored.entry.sink) (K.contents result.sink) result.session }
    ensures replies { LongSoFar L.lang result.status result.session }
    ensures read_fault { result.status ≡ Status.ReadFault
        → Rose (S.faults source.old) (S.faults source.new) }
    ensures write_fault { result.status ≡ Status.WriteFault
        → Rose (K.faults mirrored.entry.sink) (K.faults result.sink) }
{
    hearing_laws::<L>();
    let mut mirrored = mirrored;
    let status = answer_input(mirrored.alloc, &mut mirrored, source, limit);
    let Mirrored {
        alloc: _,
        lang: _,
        session,
        ear,
        sink,
    } = mirrored;
    drop(ear);
    session.none_due();
    Served {
        status,
        session,
        sink,
    }
}

/// Serves the messages of the source on one thread, each when it is whole, and writes the replies
/// before more is read. Snapshots are answered by the mirror alone, which hears the messages and
/// the other replies. The session must be new, and so must the mirror; nobody works beside the
/// reader; and replies can tell what the language reports. At most `limit` bytes are taken.
///
/// The status is WriteFault where the sink failed, and NoMemory where memory was short; BadReply
/// where a reply other than a snapshot's has a chunk too long for a byte message, by the length of
/// the first such chunk: the replies to its message are written, and no more are taken. Else it
/// tells how the input ended: Done, Truncated, BadFrame, LongInput or ReadFault.
pub fn serve<L: Language, P: Past<Service, Entry> + Drop, S: Source, K: Sink>(
    alloc: Global,
    lang: &L,
    source: &mut S,
    sink: K,
    session: Session<L, P>,
    mirror: Mirror,
    limit: usize,
) -> Served<L, P, K>
    requires new { session.items ≡ Opened session.service ∷ [] }
    requires alone { session.service ≡ Workers 0 }
    requires tellable { IsTellable L.lang }
    requires mode { mirror.mode ≡ Serve }
    requires unheard { HasHeard [] mirror }
    requires fresh { mirror.ended ≡ None }
    ensures service { result.session.service ≡ session.service }
    ensures bytes_written { BytesWritten L.lang result.status (K.contents sink)
        (K.contents result.sink) result.session }
    ensures bytes_sent { BytesSent L.lang result.status (K.contents sink)
        (K.contents result.sink) result.session }
    ensures lost { LosesSo L.lang result.status result.session }
    ensures one_legal_history { OneLegalHistory L.lang result.status result.session }
    ensures messages_read { MessagesRead result.status (S.left source.old) (S.left source.new)
        result.session }
    ensures alone { MadeAlone L.lang result.status (S.left source.old) (S.left source.new)
        result.session }
    ensures replies { LongSoFar L.lang result.status result.session }
    ensures read_fault { result.status ≡ Status.ReadFault
        → Rose (S.faults source.old) (S.faults source.new) }
    ensures write_fault { result.status ≡ Status.WriteFault
        → Rose (K.faults sink) (K.faults result.sink) }
    ensures bad_frame { (at : ℕ) → result.status ≡ Status.BadFrame at
        → BadFrameSo at (S.left source.old) (S.left source.new) }
    ensures truncated { (at : ℕ) → result.status ≡ Status.Truncated at
        → TruncatedSo at (S.left source.old) (S.left source.new) }
    ensures long_input { LongSo limit result.status (S.left source.old) (S.left source.new) }
    ensures done { result.status ≡ Status.Done → DoneSo (S.left source.old) (S.left source.new) }
    ensures not_usage { result.status ≢ Status.Usage }
    ensures no_text { (at : ℕ) → result.status ≢ Status.BadText at }
    ensures complete { HasShortReplies L.lang result.session → CompleteSo limit
        (S.left source.old) (S.faults source.old) (S.faults source.new) (K.faults sink)
        (K.faults result.sink) result.status }
{
    let ear = Ear {
        mirror,
        unheard: None,
    };
    let mirrored = Mirrored {
        alloc,
        lang,
        session,
        ear,
        sink,
    };
    serve_mirrored(mirrored, source, limit)
}
