//! What serving in threads rests on.
ghost use Rattle.thread_serve.specs.Laws.{RunLaws};

use document_session::keeping_rules_below::{history_law, sent_law};
use language::Language;
use view_laws::{handed_law, holders_law, list_law, owners_law, reader_law};

/// What lists of items tell, and what a caller's items tell of all.
pub(crate) fn run_laws<L: Language>()
    ensures { RunLaws L.lang }
{
    history_law::<L>();
    sent_law::<L>();
    list_law::<L>();
    owners_law();
    reader_law::<L>();
    handed_law::<L>();
    holders_law::<L>();
}
