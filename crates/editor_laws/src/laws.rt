//! The laws.
ghost use Rattle.std.specs.Prelude.{◌≡◌, List, ◌∷◌, ◌++◌};
ghost use Rattle.std.specs.List.{AllByRecursion};
ghost use Rattle.isar_rules.specs.Isar.{isar};
ghost use Rattle.reply_messages.specs.FoundReplies.{IsReply};
ghost use Rattle.session_rules.specs.declared.entry.Entry.{Entry};
ghost use Rattle.session_rules.specs.declared.service.Service.{Service};
ghost use Rattle.session_rules.specs.Heard.{all_heard};
ghost use Rattle.session_rules.specs.Legal.{IsLegal};
ghost use Rattle.session_rules.specs.Services.{mode_of};
ghost use Rattle.mirror_rules.specs.Events.{MirrorEvent, stream};
ghost use Rattle.mirror_rules.specs.Images.{Mirror};
ghost use Rattle.mirror_rules.specs.Moves.{Going, Move, mirrored};
ghost use Rattle.editor_laws.specs.Shown.{SeesSo};
ghost use Rattle.editor_laws.specs.Streams.{EndsWith, all_replies};
ghost use Rattle.editor_laws.specs.Heard.{AreMessages, FollowsMessages};
ghost use Rattle.editor_laws.specs.Tellable.{IsTellable};

use crate::editor_facts::told_law;
use crate::mirror_laws::bytes_law;
use crate::report_laws::{plain_law, sheets_law};
use buffer_laws::names_law;
use core_rules::{core_law, homes_law, places_law};
use exec_rules::numbers_law;
use language::Language;
use message_values::a_message_is_asked_where_it_is_spelled;
use session_rules::events_law;
use symbol_markup::places_in_symbols;

/// Replies can tell what the command language reports.
pub fn isar_law()
    ensures { IsTellable isar }
{
    told_law();
    plain_law();
}

/// Where replies can tell what a language reports, each reply of a legal history whose calls are
/// byte messages can be read: its names are names, its ids and numbers have their size, its texts
/// are plain, and its lists rise.
pub fn readable_law<L: Language>()
    ensures { (service : Service) (history : List Entry) → IsTellable L.lang
        → IsLegal L.lang service (all_heard service history) → AreMessages history
        → AllByRecursion IsReply (all_replies L.lang service history) }
{
    a_message_is_asked_where_it_is_spelled();
    names_law();
    sheets_law();
    numbers_law();
    places_in_symbols();
    core_law::<L>();
    homes_law::<L>();
    places_law::<L>();
    events_law::<L>();
}

/// So an editor that follows such a history by bytes, cut into pieces anywhere, meets no fault, and
/// where the bytes end with the whole reply of an entry, it sees what the session shows after it,
/// as long as no chunk of a reply is too long for a byte message.
pub fn messages_law<L: Language>()
    ensures going { (service : Service) (history : List Entry) (events : List MirrorEvent)
        (moves : List Move) → IsTellable L.lang
        → FollowsMessages L.lang service history events moves
        → (m : Mirror) × (mirrored (mode_of service) moves ≡ Going m) }
    ensures sees { (service : Service) (history ahead h : List Entry) (e : Entry)
        (events : List MirrorEvent) (moves : List Move) → IsTellable L.lang
        → FollowsMessages L.lang service history events moves → history ≡ ahead ++ e ∷ h
        → EndsWith L.lang service h e (stream events) → SeesSo L.lang service (e ∷ h) moves }
{
    readable_law::<L>();
    bytes_law::<L>();
}
