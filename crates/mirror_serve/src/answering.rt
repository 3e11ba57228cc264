//! Answering a message.
ghost use Rattle.std.specs.Prelude.{◌≡◌, ◌∷◌, ◌≤◌, [], Ok, OnOk, IfErr};
ghost use Rattle.message_input.specs.Answers.{HaltsAmong};
ghost use Rattle.message_values.specs.Asked.{asked};
ghost use Rattle.message_values.specs.declared.editor_message.EditorMessage.TheVariants as asks;
ghost use Rattle.message_values.specs.declared.mode.Mode.TheVariants.{Serve};
ghost use Rattle.document_serve.specs.Runs.{GoesOn};
ghost use Rattle.mirror_serve.specs.Looks.{IsNoLook};
ghost use Rattle.mirror_serve.specs.Resting.{Rests};
ghost use Rattle.mirror_serve.specs.Halts.{HaltsSo};

use crate::ear::{Ear, Unheard};
use crate::laws::mirror_laws;
use crate::look::Look;
use crate::noting::note_look;
use byte_message::Message;
use document_serve::{serve_message, write_out};
use document_session::Session;
use language::Language;
use message_input::Halt;
use pide_base::Sink;
use reply_outbox::Past;
use session_rules::{Entry, Service};
use std::alloc::Global;

/// Answers a snapshot by what the mirror knows, and writes the reply. The session takes note of it.
pub(crate) fn show<L: Language, P: Past<Service, Entry> + Drop, K: Sink>(
    alloc: Global,
    session: &mut Session<L, P>,
    sink: &mut K,
    ear: &Ear,
    message: Message,
    look: Look,
) -> Result<(), Halt>
    requires rests { Rests L.lang session.old ear.now }
    requires read { asked Serve message
        ≡ Ok (asks.Snapshot look.version look.node look.edits) }
    ensures service { session.new.service ≡ session.old.service }
    ensures ok { OnOk result (GoesOn L.lang (K.contents sink.old) (K.contents sink.new)
        session.old session.new (message ∷ [])) }
    ensures rests { OnOk result (Rests L.lang session.new ear.now) }
    ensures err { IfErr result (λ halt. HaltsAmong (λ old first halt rest new. HaltsSo L.lang halt
        (K.contents sink.old) (K.contents sink.new) (K.faults sink.old) (K.faults sink.new) old
        new first rest) session.old (message ∷ []) halt session.new) }
    ensures steady { K.faults sink.old ≤ K.faults sink.new }
{
    mirror_laws::<L>();
    message.is_within_limits();
    note_look(alloc, session, ear, message, look)?;
    write_out(session, sink)
}

/// Has the session answer a message, and the mirror hear what is replied, which is written. Where a
/// reply is too long for the mirror, all of them are written, and the session has ended.
pub(crate) fn pass_on<L: Language, P: Past<Service, Entry> + Drop, K: Sink>(
    alloc: Global,
    lang: &L,
    session: &mut Session<L, P>,
    sink: &mut K,
    ear: &mut Ear,
    message: Message,
) -> Result<(), Halt>
    requires rests { Rests L.lang session.old ear.old }
    requires other { IsNoLook (asked Serve message) }
    ensures service { session.new.service ≡ session.old.service }
    ensures ok { OnOk result (GoesOn L.lang (K.contents sink.old) (K.contents sink.new)
        session.old session.new (message ∷ [])) }
    ensures rests { OnOk result (Rests L.lang session.new ear.new) }
    ensures err { IfErr result (λ halt. HaltsAmong (λ old first halt rest new. HaltsSo L.lang halt
        (K.contents sink.old) (K.contents sink.new) (K.faults sink.old) (K.faults sink.new) old
        new first rest) session.old (message ∷ []) halt session.new) }
    ensures steady { K.faults sink.old ≤ K.faults sink.new }
{
    mirror_laws::<L>();
    message.is_within_limits();
    let Ok(()) = ear.mirror.sent(&message) else {
        drop(message);
        return Err(Halt::NoMemory);
    };
    serve_message(alloc, lang, session, sink, ear, message)?;
    match ear.unheard {
        None => Ok(()),
        Some(Unheard::LongChunk(len)) => {
            session.end();
            Err(Halt::BadReply { len })
        }
        Some(Unheard::NoMemory) => Err(Halt::NoMemory),
        Some(Unheard::Fault) => unreachable!(),
    }
}
