//! Serving a message on one thread.
ghost use Rattle.std.specs.Prelude.{◌≡◌, ◌∷◌, ◌≤◌, [], OnOk, IfErr};
ghost use Rattle.message_input.specs.Answers.{HaltsAmong};
ghost use Rattle.document_serve.specs.Going.{IsAtRest};
ghost use Rattle.message_input.specs.Counts.{CountsSo};
ghost use Rattle.reply_outbox.specs.Items.{entries};
ghost use Rattle.document_serve.specs.Listening.{HearsOn};
ghost use Rattle.document_serve.specs.Runs.{GoesOn, StopsSo};
ghost use Rattle.document_serve.specs.Served.{HasAnswered};

use crate::laws::work_laws;
use crate::listening::Listener;
use crate::working::work;
use crate::writing::write_heard;
use byte_message::Message;
use document_session::{Session, Taken};
use language::Language;
use message_input::Halt;
use pide_base::Sink;
use reply_outbox::Past;
use session_rules::{Entry, Service};
use std::alloc::Global;

/// Answers a message, after the parts that it waits for are worked on, and writes what is replied,
/// which is heard before.
pub fn serve_message<L: Language, P: Past<Service, Entry> + Drop, K: Sink, H: Listener>(
    alloc: Global,
    lang: &L,
    session: &mut Session<L, P>,
    sink: &mut K,
    listener: &mut H,
    message: Message,
) -> Result<(), Halt>
    requires { IsAtRest L.lang session.old }
    ensures service { session.new.service ≡ session.old.service }
    ensures ok { OnOk result (GoesOn L.lang (K.contents sink.old) (K.contents sink.new)
        session.old session.new (message ∷ [])) }
    ensures answered { OnOk result (HasAnswered message (entries session.old.items)
        (entries session.new.items)) }
    ensures heard { OnOk result (HearsOn L.lang H.hears session.old session.new listener.old
        listener.new) }
    ensures err { IfErr result (λ halt. HaltsAmong (λ old first halt rest new. StopsSo L.lang halt
        (K.contents sink.old) (K.contents sink.new) old new first rest) session.old (message ∷ [])
        halt session.new) }
    ensures steady { K.faults sink.old ≤ K.faults sink.new }
    ensures counts { IfErr result (λ halt. CountsSo halt (K.faults sink.old)
        (K.faults sink.new)) }
{
    work_laws::<L>();
    let mut message = message;
    'waiting: loop {
        match session.take(alloc, lang, message)? {
            Taken::Replied => return write_heard(session, sink, listener),
            Taken::Waits(back) => message = back,
        }
        work(alloc, lang, session)?;
        write_heard(session, sink, listener)?;
    }
}
