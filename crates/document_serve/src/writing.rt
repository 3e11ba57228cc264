//! Writing the replies that wait.
ghost use Rattle.std.specs.Prelude.{◌≡◌, ◌≤◌, false, OnOk, IfErr};
ghost use Rattle.reply_outbox.specs.Items.{is_lost};
ghost use Rattle.document_session.specs.keeping_rules_below.Legal.{AreLegal};
ghost use Rattle.message_input.specs.Counts.{CountsSo};
ghost use Rattle.document_serve.specs.Listening.{HearsOn};
ghost use Rattle.document_serve.specs.Runs.{WrittenSo};

use crate::laws::list_laws;
use crate::listening::{Listener, Nobody};
use document_session::Session;
use language::Language;
use message_input::Halt;
use pide_base::{Sink, push_whole};
use reply_outbox::Past;
use session_rules::{Entry, Service};

/// Writes the replies that wait, the oldest first. Where the sink fails the session loses it, and
/// nothing is written after that.
pub fn write_out<L: Language, P: Past<Service, Entry> + Drop, K: Sink>(
    session: &mut Session<L, P>,
    sink: &mut K,
) -> Result<(), Halt>
    requires kept { is_lost session.old.items ≡ false }
    requires legal { AreLegal L.lang session.old.service session.old.items }
    ensures service { session.new.service ≡ session.old.service }
    ensures written { WrittenSo L.lang (K.contents sink.old) (K.contents sink.new) session.old
        session.new result }
    ensures steady { K.faults sink.old ≤ K.faults sink.new }
    ensures cause { IfErr result (λ halt. CountsSo halt (K.faults sink.old) (K.faults sink.new)) }
{
    write_heard(session, sink, &mut Nobody)
}

/// The same, and has each reply heard before it is written.
pub(crate) fn write_heard<L: Language, P: Past<Service, Entry> + Drop, K: Sink, H: Listener>(
    session: &mut Session<L, P>,
    sink: &mut K,
    listener: &mut H,
) -> Result<(), Halt>
    requires kept { is_lost session.old.items ≡ false }
    requires legal { AreLegal L.lang session.old.service session.old.items }
    ensures service { session.new.service ≡ session.old.service }
    ensures written { WrittenSo L.lang (K.contents sink.old) (K.contents sink.new) session.old
        session.new result }
    ensures heard { OnOk result (HearsOn L.lang H.hears session.old session.new listener.old
        listener.new) }
    ensures steady { K.faults sink.old ≤ K.faults sink.new }
    ensures cause { IfErr result (λ halt. CountsSo halt (K.faults sink.old) (K.faults sink.new)) }
{
    list_laws::<L>();
    'sending: while let Some(bytes) = session.sent() {
        listener.hear(&bytes);
        if !push_whole(sink, &bytes) {
            session.lose();
            return Err(Halt::WriteFault);
        }
    }
    Ok(())
}
