//! A theory of which an editor sees no error.
ghost use Rattle.std.specs.Prelude.{◌≡◌, ℕ, ◌<◌, true, List, length, slice_get, Some};
ghost use Rattle.doc_nodes.specs.declared.node.Node.{Node};
ghost use Rattle.doc_nodes.specs.Imports.{is_ordered, place_of};
ghost use Rattle.core_tables.specs.Live.{version_of};
ghost use Rattle.exec_rules.specs.declared.version.Version.{Version};
ghost use Rattle.exec_rules.specs.Assigning.{entries_in};
ghost use Rattle.message_values.specs.declared.protocol.Protocol.TheVariants.{Scalars};
ghost use Rattle.session_rules.specs.declared.service.Service.{Service};
ghost use Rattle.session_rules.specs.Heard.{Heard};
ghost use Rattle.session_rules.specs.History.{session};
ghost use Rattle.session_rules.specs.Legal.{IsLegal};
ghost use Rattle.session_rules.specs.Session.{document};
ghost use Rattle.isar_rules.specs.Isar.{isar};
ghost use Rattle.soundness_laws.specs.Believed.{IsSoundAt, IsTheoryAt};
ghost use Rattle.soundness_laws.specs.Seen.{HasSettled, IsQuiet, IsWhole, OfEachNeeded, ShowsNoError, TellsNoError};

use crate::theories::facts_law;
use crate::theory_laws::sound_facts_law;
use core_rules::{core_law, covers_law, homes_law, places_law};
use doc_nodes::{order_law, wanted_law};
use session_rules::events_law;
use toplevel::Isar;

/// At each moment of each legal history, for each node of each live version: where the node and all
/// its imports, direct or not, have an evaluation for each command, nothing of them is pending and
/// no error is shown of them, each fact of the node's theory follows by natural deduction from
/// axioms of these theories. So it is where snapshots would tell this, and where the version is
/// settled with nothing stuck and no error is shown. All commands of a required node and its
/// imports have evaluations, where none of the imports is bad.
pub fn sound_law()
    ensures shown { (service : Service) (h : List Heard) (id : ℕ) (v : Version) (name : List ℕ)
        (p : ℕ) → IsLegal isar service h
        → version_of (document isar (session isar service h)).live id ≡ Some v
        → place_of v.nodes name ≡ Some p
        → OfEachNeeded (IsQuiet (session isar service h).events v) v p
        → IsSoundAt v.nodes v.blobs p }
    ensures told { (service : Service) (h : List Heard) (id : ℕ) (v : Version) (name : List ℕ)
        (p : ℕ) → IsLegal isar service h
        → version_of (document isar (session isar service h)).live id ≡ Some v
        → place_of v.nodes name ≡ Some p → (session isar service h).protocol ≡ Scalars
        → OfEachNeeded (IsWhole v) v p → OfEachNeeded (TellsNoError service h id) v p
        → IsSoundAt v.nodes v.blobs p }
    ensures settled { (service : Service) (h : List Heard) (id : ℕ) (v : Version) (name : List ℕ)
        (p : ℕ) → IsLegal isar service h
        → version_of (document isar (session isar service h)).live id ≡ Some v
        → place_of v.nodes name ≡ Some p → HasSettled (session isar service h).events v
        → OfEachNeeded (IsWhole v) v p
        → OfEachNeeded (ShowsNoError (session isar service h).events v) v p
        → IsSoundAt v.nodes v.blobs p }
    ensures required { (service : Service) (h : List Heard) (id : ℕ) (v : Version) (p : ℕ)
        (pair : List ℕ × Node) → IsLegal isar service h
        → version_of (document isar (session isar service h)).live id ≡ Some v
        → slice_get v.nodes p ≡ Some pair → pair.1.required ≡ true → is_ordered v.nodes p ≡ true
        → OfEachNeeded (IsWhole v) v p }
{
    core_law::<Isar>();
    covers_law::<Isar>();
    homes_law::<Isar>();
    places_law::<Isar>();
    events_law::<Isar>();
    order_law();
    wanted_law();
    sound_facts_law();
}

/// At each moment of each legal history, for each node of each live version that has a command:
/// where the node and all its imports, direct or not, have an evaluation for each command, nothing
/// of them is pending and no error is shown of them, the node's theory has just the facts that the
/// commands of these theories state, each under its name.
pub fn theory_law()
    ensures { (service : Service) (h : List Heard) (id : ℕ) (v : Version) (name : List ℕ)
        (p : ℕ) → IsLegal isar service h
        → version_of (document isar (session isar service h)).live id ≡ Some v
        → place_of v.nodes name ≡ Some p
        → OfEachNeeded (IsQuiet (session isar service h).events v) v p
        → 0 < length (entries_in v name) → IsTheoryAt v.nodes v.blobs p }
{
    core_law::<Isar>();
    homes_law::<Isar>();
    places_law::<Isar>();
    events_law::<Isar>();
    order_law();
    sound_facts_law();
    facts_law();
}
