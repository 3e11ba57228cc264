//! What holds of an editor that follows a history.
ghost use Rattle.std.specs.Prelude.{◌≡◌, List, ◌∷◌, ◌++◌, None};
ghost use Rattle.message_values.specs.declared.mode.Mode.{Mode};
ghost use Rattle.session_rules.specs.declared.entry.Entry.{Entry};
ghost use Rattle.session_rules.specs.declared.service.Service.{Service};
ghost use Rattle.session_rules.specs.declared.service.Service.TheVariants as service_is;
ghost use Rattle.session_rules.specs.Alone.{IsAlone};
ghost use Rattle.session_rules.specs.Heard.{all_heard};
ghost use Rattle.session_rules.specs.Legal.{IsLegal};
ghost use Rattle.session_rules.specs.Services.{mode_of};
ghost use Rattle.mirror_rules.specs.Answers.{Read};
ghost use Rattle.mirror_rules.specs.Events.{AreMoves, MirrorEvent, stream};
ghost use Rattle.mirror_rules.specs.Images.{Mirror};
ghost use Rattle.mirror_rules.specs.Moves.{Going, Move, mirrored};
ghost use Rattle.mirror_rules.specs.Telling.{IsTold};
ghost use Rattle.editor_laws.specs.Follows.{Follows};
ghost use Rattle.editor_laws.specs.Shown.{SeesSo, WaitsSo};
ghost use Rattle.editor_laws.specs.Streams.{EndsWith, FollowsBytes};

use byte_message::{longer_streams, one_reading, written_is_read};
use command_spans::one_list;
use core_rules::{core_law, holders_law, homes_law, places_law};
use exec_rules::kept_law;
use language::Language;
use message_values::a_message_is_asked_where_it_is_spelled;
use reply_messages::what_is_written_is_read_back;
use report_markup::one_order;
use session_rules::{events_law, headline_law};
use symbol_markup::{places_in_symbols, ranges_are_had_back};

/// An editor that sends a history's messages, each before its reply, and hears the replies, meets
/// no fault, and sees of each node of each version just what the session shows and lists as pending
/// after the entries whose replies it has heard; and what it sent ahead is what is unanswered. Where
/// messages step the workers, the reader works before settles alone.
pub fn mirror_law<L: Language>()
    ensures sees { (service : Service) (ahead h : List Entry) (sent : List Read)
        (moves : List Move) → IsTold L.lang → IsLegal L.lang service (all_heard service h)
        → (service ≡ service_is.Script
        → IsAlone L.lang service None (all_heard service (ahead ++ h)))
        → Follows L.lang service ahead h sent moves → SeesSo L.lang service h moves }
    ensures waits { (service : Service) (ahead h : List Entry) (sent : List Read)
        (moves : List Move) → IsTold L.lang → IsLegal L.lang service (all_heard service h)
        → (service ≡ service_is.Script
        → IsAlone L.lang service None (all_heard service (ahead ++ h)))
        → Follows L.lang service ahead h sent moves → WaitsSo L.lang service h sent moves }
{
    events_law::<L>();
    headline_law::<L>();
    core_law::<L>();
    holders_law::<L>();
    homes_law::<L>();
    places_law::<L>();
    kept_law();
    one_list();
    one_order();
    places_in_symbols();
    ranges_are_had_back();
    a_message_is_asked_where_it_is_spelled();
}

/// The same by bytes, cut into pieces anywhere: as long as they are a front of a history's replies,
/// there is no fault, and where they end with the whole reply of an entry, the editor sees what the
/// session shows after it.
pub fn bytes_law<L: Language>()
    ensures going { (service : Service) (history : List Entry) (events : List MirrorEvent)
        (moves : List Move) → IsTold L.lang
        → FollowsBytes L.lang service history events moves
        → (m : Mirror) × (mirrored (mode_of service) moves ≡ Going m) }
    ensures sees { (service : Service) (history ahead h : List Entry) (e : Entry)
        (events : List MirrorEvent) (moves : List Move) → IsTold L.lang
        → FollowsBytes L.lang service history events moves → history ≡ ahead ++ e ∷ h
        → EndsWith L.lang service h e (stream events) → SeesSo L.lang service (e ∷ h) moves }
{
    mirror_law::<L>();
    one_reading();
    written_is_read();
    longer_streams();
    what_is_written_is_read_back();
}

/// What an editor sends and hears comes to one list of moves at most, so what it knows by bytes is
/// one answer.
pub fn moves_law()
    ensures { (mode : Mode) (events : List MirrorEvent) (moves others : List Move)
        → AreMoves mode events moves → AreMoves mode events others → moves ≡ others }
{
    one_reading();
    longer_streams();
    what_is_written_is_read_back();
}
