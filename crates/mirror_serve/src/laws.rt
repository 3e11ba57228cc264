//! What serving with a mirror rests on.
ghost use Rattle.mirror_serve.specs.Laws.{HearingLaws, MirrorLaws};

use byte_message::{longer_streams, one_reading, written_is_read};
use document_session::keeping_rules_below::{history_law, sent_law};
use editor_laws::{mirror_law, moves_law, readable_law};
use language::Language;
use message_values::a_message_is_asked_where_it_is_spelled;
use reply_messages::what_is_written_is_read_back;

/// What replies that are heard come to.
pub(crate) fn hearing_laws<L: Language>()
    ensures { HearingLaws L.lang }
{
    history_law::<L>();
    sent_law::<L>();
    readable_law::<L>();
    one_reading();
    written_is_read();
    longer_streams();
    what_is_written_is_read_back();
    moves_law();
}

/// What an editor sees that sent all messages and heard all replies.
pub(crate) fn mirror_laws<L: Language>()
    ensures { MirrorLaws L.lang }
{
    hearing_laws::<L>();
    mirror_law::<L>();
    a_message_is_asked_where_it_is_spelled();
}
