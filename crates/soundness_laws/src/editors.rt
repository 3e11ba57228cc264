//! What an editor sees by messages and bytes alone.
ghost use Rattle.std.specs.Prelude.{◌≡◌, List, ◌∷◌, ◌++◌};
ghost use Rattle.isar_rules.specs.Isar.{isar};
ghost use Rattle.session_rules.specs.declared.entry.Entry.{Entry};
ghost use Rattle.session_rules.specs.declared.service.Service.{Service};
ghost use Rattle.session_rules.specs.Services.{mode_of};
ghost use Rattle.mirror_rules.specs.Events.{MirrorEvent, stream};
ghost use Rattle.mirror_rules.specs.Images.{Mirror};
ghost use Rattle.mirror_rules.specs.Moves.{Going, Move, mirrored};
ghost use Rattle.editor_laws.specs.Shown.{SeesSo};
ghost use Rattle.editor_laws.specs.Streams.{EndsWith};
ghost use Rattle.editor_laws.specs.Heard.{FollowsMessages};

use editor_laws::{isar_law, messages_law};
use toplevel::Isar;

/// An editor of the command language that knows only the messages it sent and the bytes it heard,
/// cut into pieces anywhere, meets no fault; and where the bytes end with the whole reply of an
/// entry, it sees of each node of each version what the session shows after that entry. So it is in
/// each legal history of byte messages, as long as no chunk of a reply is too long for one.
pub fn editor_law()
    ensures going { (service : Service) (history : List Entry) (events : List MirrorEvent)
        (moves : List Move) → FollowsMessages isar service history events moves
        → (m : Mirror) × (mirrored (mode_of service) moves ≡ Going m) }
    ensures sees { (service : Service) (history ahead h : List Entry) (e : Entry)
        (events : List MirrorEvent) (moves : List Move)
        → FollowsMessages isar service history events moves → history ≡ ahead ++ e ∷ h
        → EndsWith isar service h e (stream events) → SeesSo isar service (e ∷ h) moves }
{
    isar_law();
    messages_law::<Isar>();
}
