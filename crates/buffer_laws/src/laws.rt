//! The laws.

ghost use Rattle.std.specs.Prelude.{◌≡◌, ℕ, Bool, List, ◌<◌, ◌≤◌, length, map, Ok};
ghost use Rattle.std.specs.List.{AllByRecursion};
ghost use Rattle.pide_base.specs.Ids.{id_end};
ghost use Rattle.shared_map.specs.Pairs.{IsSorted};
ghost use Rattle.doc_nodes.specs.Names.{in_order};
ghost use Rattle.doc_nodes.specs.Imports.{NodeList};
ghost use Rattle.buffer_rules.specs.Sheets.{SheetList};
ghost use Rattle.buffer_rules.specs.Nodes.{nodes_after};
ghost use Rattle.core_rules.specs.Assigned.{command_ids};
ghost use Rattle.buffer_rules.specs.Preparing.{Buffer, prepared, empty_buffer};
ghost use Rattle.buffer_rules.specs.Updates.{Asked};
ghost use Rattle.core_rules.specs.Doc.{Doc, assignment_of, updated_doc};
ghost use Rattle.core_rules.specs.Updates.{AllDiffer, AreRising, FitsUpdate};
ghost use Rattle.buffer_laws.specs.Fitting.{Agrees, start_doc};
ghost use Rattle.buffer_laws.specs.Known.{AreBelow, AreKnown, HasOwnHeader, IsBare};

use buffer_rules::{ids_law, kept_law};
use command_spans::one_list;
use outer_syntax::one_header;

/// The nodes have the names of the sheets, in their order.
pub fn names_law()
    ensures { (tip : NodeList) (sheets : SheetList) (next : ℕ)
        → map (λ pair. pair.0) (nodes_after tip sheets next).nodes ≡ map (λ pair. pair.0) sheets }
{}

/// No two commands of a version have the same id, and each is below the next one, where that holds
/// of the version before; the next id never falls.
pub fn numbers_law()
    ensures differ { (tip : NodeList) (sheets : SheetList) (next : ℕ) → IsSorted in_order sheets
        → AllDiffer (command_ids tip) → AreBelow next (command_ids tip)
        → AllDiffer (command_ids (nodes_after tip sheets next).nodes) }
    ensures below { (tip : NodeList) (sheets : SheetList) (next : ℕ)
        → AreBelow next (command_ids tip) → AreBelow (nodes_after tip sheets next).next
        (command_ids (nodes_after tip sheets next).nodes) }
    ensures rises { (tip : NodeList) (sheets : SheetList) (next : ℕ)
        → next ≤ (nodes_after tip sheets next).next }
{
    kept_law();
    ids_law();
}

/// Each command of a version has a new id, or is one that the node of its name had before, with the
/// same source.
pub fn known_law()
    ensures { (tip : NodeList) (sheets : SheetList) (next : ℕ)
        → AreKnown tip next (nodes_after tip sheets next).nodes }
{
    kept_law();
}

/// The commands of each node stand in its text one behind the other.
pub fn places_law()
    ensures { (tip : NodeList) (sheets : SheetList) (next : ℕ)
        → AllByRecursion (λ pair. AreRising 0 (length pair.1.text) pair.1.entries)
        (nodes_after tip sheets next).nodes }
{
    one_list();
}

/// A node without commands has neither imports nor keyword pairs.
pub fn bare_law()
    ensures { (tip : NodeList) (sheets : SheetList) (next : ℕ)
        → AllByRecursion (λ pair. IsBare pair.1) (nodes_after tip sheets next).nodes }
{
    ids_law();
    one_list();
    outer_syntax::one_list();
    one_header();
}

/// A node's imports and keyword pairs are those of its first command's source, so two nodes that
/// begin with the same source have the same.
pub fn header_law()
    ensures { (tip : NodeList) (sheets : SheetList) (next : ℕ)
        → AllByRecursion (λ pair. HasOwnHeader pair.1) (nodes_after tip sheets next).nodes }
{
    one_list();
    outer_syntax::one_list();
    one_header();
}

/// What an update prepares is what the core asks of an update, as long as both documents agree, its
/// version is above all before, and the ids of executions suffice. They agree at the start, and
/// after each update.
pub fn fits_law()
    ensures fits { (b b' : Buffer) (d : Doc) (live id : ℕ) (asked : Asked) → Agrees b d
        → prepared b live asked ≡ Ok b' → d.last < id
        → (assignment_of d b'.nodes b'.document.blobs).next ≤ id_end
        → FitsUpdate d id b'.nodes b'.document.blobs }
    ensures kept { (b b' : Buffer) (d : Doc) (live id : ℕ) (asked : Asked) (opened : ℕ → Bool)
        → Agrees b d → prepared b live asked ≡ Ok b' → Agrees b'
        (updated_doc opened d id b'.nodes b'.document.blobs
        (assignment_of d b'.nodes b'.document.blobs)) }
    ensures begins { Agrees empty_buffer start_doc }
{
    names_law();
    numbers_law();
    known_law();
    places_law();
    bare_law();
    header_law();
}
