//! The rows of a node in a version, by its name.
ghost use Rattle.std.specs.Prelude.{◌≡◌, slice_get};
ghost use Rattle.std.specs.Option.{option_copied};
ghost use Rattle.shared_map.specs.Pairs.{IsSorted};
ghost use Rattle.doc_nodes.specs.Looks.{marked};
ghost use Rattle.doc_nodes.specs.Names.{in_order};
ghost use Rattle.exec_rules.specs.Assigning.{assigned_in, rows_in};
ghost use Rattle.update_plans.specs.Beside.{is_marked};

use doc_nodes::{Nodes, Shared};
use exec_rules::{Assigned, Row, Version};
use pide_base::NodeName;
use shared_map::Exactly;

/// What the version assigns to the node of this name.
fn assigned_in<'a>(version: &'a Version, name: &NodeName) -> Option<&'a Shared<Assigned>>
    ensures { option_copied result ≡ assigned_in version.now name.now }
{
    let place = version.nodes.place_in(&Exactly(name))?;
    version.assigned.get(place)
}

/// The rows that it has there.
pub(crate) fn rows_in<'a>(version: &'a Version, name: &NodeName) -> &'a [Row]
    ensures { result.now ≡ rows_in version.now name.now }
{
    match assigned_in(version, name) {
        Some(assigned) => assigned.get().rows.as_slice(),
        None => &[],
    }
}

/// The row at the place, if there is one.
pub(crate) fn row_at(rows: &[Row], place: usize) -> Option<Row>
    ensures { result ≡ slice_get rows.now place }
{
    match rows.get(place) {
        Some(row) => Some(*row),
        None => None,
    }
}

/// Whether the node of this name is one of these, and marked.
pub(crate) fn is_marked(marks: &[bool], nodes: &Nodes, name: &NodeName) -> bool
    ensures { result ≡ is_marked marks.now nodes.now name.now }
{
    match nodes.place_in(&Exactly(name)) {
        Some(place) => has_mark(marks, place),
        None => false,
    }
}

/// Whether the place is marked.
pub(crate) fn has_mark(marks: &[bool], place: usize) -> bool
    ensures { result ≡ marked marks.now place }
{
    place < marks.len() && marks[place]
}

/// The names of nodes rise.
pub(crate) fn names_law(nodes: &Nodes)
    ensures { IsSorted in_order nodes.now }
{
    nodes.iter();
}
