//! What serving rests on.
ghost use Rattle.document_serve.specs.Laws.{ListLaws, WorkLaws};

use core_rules::{alone_law, first_law, rest_law};
use document_session::keeping_rules_below::{history_law, sent_law};
use language::Language;
use message_values::a_message_is_asked_where_it_is_spelled;

/// What lists tell.
pub(crate) fn list_laws<L: Language>()
    ensures { ListLaws L.lang }
{
    history_law::<L>();
    sent_law::<L>();
}

/// What the reader's work comes to.
pub(crate) fn work_laws<L: Language>()
    ensures { WorkLaws L.lang }
{
    list_laws::<L>();
    history_law::<L>();
    first_law::<L>();
    rest_law::<L>();
    alone_law::<L>();
    a_message_is_asked_where_it_is_spelled();
}
