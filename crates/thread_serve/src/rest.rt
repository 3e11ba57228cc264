//! What is written once the session is taken out.
ghost use Rattle.std.specs.Prelude.{◌≡◌, ◌≤◌, true, false};
ghost use Rattle.pide_base.specs.Faults.{Rose};
ghost use Rattle.reply_outbox.specs.Items.{is_lost};
ghost use Rattle.document_session.specs.keeping_rules_below.Legal.{AreLegal};
ghost use Rattle.document_serve.specs.Runs.{IsSame};
ghost use Rattle.thread_serve.specs.Rest.{RestSo};

use document_serve::write_out;
use document_session::Session;
use language::Language;
use pide_base::Sink;
use reply_outbox::Past;
use session_rules::{Entry, Service};
use worker_loop::Written;

/// Writes the replies that the writer left, unless the sink failed before. Answers whether the sink
/// is lost.
pub(crate) fn write_rest<L: Language, P: Past<Service, Entry> + Drop, K: Sink>(
    session: &mut Session<L, P>,
    sink: &mut K,
    written: Written,
) -> bool
    requires legal { AreLegal L.lang session.old.service session.old.items }
    requires kept { written ≡ Written.Ended → is_lost session.old.items ≡ false }
    ensures same { IsSame L.lang session.old session.new }
    ensures rest { RestSo L.lang written (K.contents sink.old) (K.contents sink.new)
        session.old session.new result }
    ensures steady { K.faults sink.old ≤ K.faults sink.new }
    ensures cause { written ≡ Written.Ended → result ≡ true
        → Rose (K.faults sink.old) (K.faults sink.new) }
{
    match written {
        Written::WriteFault => true,
        Written::Ended => write_out(session, sink).is_err(),
    }
}
