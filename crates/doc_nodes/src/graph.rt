//! The imports of a version's nodes, by place.
ghost use Rattle.std.specs.Prelude.{◌≡◌, ◌++◌, length, filter, not, map, IfOk, OnOk};
ghost use Rattle.std.specs.List.{range_with_len};
ghost use Rattle.doc_nodes.specs.Looks.{AreMarks, marked, aims_at};
ghost use Rattle.doc_nodes.specs.Rounds.{in_rounds};
ghost use Rattle.doc_nodes.specs.Imports.{place_of, aims_of, aims};
ghost use Rattle.doc_nodes.specs.Graphs.{IsGraphOf};

use crate::called::Called;
use crate::node::{Node, Nodes};
use crate::rounds::{in_rounds, marks_of};
use joined_results::both;
use sqlite_items::Items;
use std::alloc::{AllocError, Global};
use std::marker::Model;

/// The imports of a version's nodes: each node's, by place; the places in the order of imports; and
/// which are ordered.
#[derive(Drop)]
pub struct ImportGraph {
    aims: Vec<Items<Option<usize>>>,
    order: Vec<usize>,
    marks: Vec<bool>,
}

impl Model for ImportGraph {
    ghost use Rattle.doc_nodes.specs.Graph.{Graph};

    ghost Value = { Graph };

    ghost view = { λ graph. record {
      aims = graph.aims.items;
      order = graph.order.items;
      marks = graph.marks.items;
    } };
}

impl ImportGraph {
    /// The imports of these nodes.
    pub fn of(alloc: Global, nodes: &Nodes) -> Result<ImportGraph, AllocError>
        ensures { IfOk result (λ graph. IsGraphOf nodes.now graph) }
    {
        let aims = all_aims(alloc, nodes)?;
        let placed = places_in_order(alloc, &aims);
        let (aims, (order, marks)) = both(Ok(aims), placed)?;
        Ok(ImportGraph { aims, order, marks })
    }

    /// The places of all nodes, in the order of imports.
    pub fn order(&self) -> &[usize]
        ensures { result.now ≡ self.now.order }
    {
        &self.order
    }

    /// Whether the node at the place is ordered.
    pub fn is_ordered(&self, place: usize) -> bool
        ensures { result ≡ marked self.now.marks place }
    {
        place < self.marks.len() && self.marks[place]
    }

    /// The places of a node's imports, in the header's order; None for one that is no node.
    pub fn aims(&self, place: usize) -> &[Option<usize>]
        ensures { result.now ≡ aims_at self.now.aims place }
    {
        match self.aims.get(place) {
            Some(aims) => aims.as_slice(),
            None => &[],
        }
    }
}

/// The place of the node of this name.
pub(crate) fn place_of(nodes: &Nodes, name: &[char]) -> Option<usize>
    ensures { result ≡ place_of nodes.now name.now }
{
    nodes.place_in(&Called { name })
}

fn aims_of(alloc: Global, nodes: &Nodes, node: &Node) -> Result<Items<Option<usize>>, AllocError>
    ensures { IfOk result (λ aims. aims ≡ aims_of nodes.now node.now) }
{
    let mut aims = Vec::new(alloc);
    'imports: for name in node.imports.get().as_slice() {
        aims.push(place_of(nodes, name.as_slice()))?;
    }
    Ok(Items::from_vec(aims))
}

fn all_aims(alloc: Global, nodes: &Nodes) -> Result<Vec<Items<Option<usize>>>, AllocError>
    ensures { IfOk result (λ rows. rows.items ≡ aims nodes.now) }
{
    let mut rows = Vec::new(alloc);
    let mut rest = nodes.iter();
    'nodes: while let Some((_, node)) = rest.next() {
        rows.push(aims_of(alloc, nodes, node)?)?;
    }
    Ok(rows)
}

/// The places of all nodes with these imports, in their order, and marks of those that are ordered.
fn places_in_order(
    alloc: Global,
    aims: &[Items<Option<usize>>],
) -> Result<(Vec<usize>, Vec<bool>), AllocError>
    ensures order { IfOk result (λ placed. placed.0.items ≡ in_rounds aims.now
        ++ filter (λ p. not (marked placed.1.items p))
        (range_with_len 0 (length placed.1.items))) }
    ensures marks { IfOk result (λ placed. AreMarks placed.1.items (in_rounds aims.now)) }
    ensures len { IfOk result (λ placed. length placed.1.items ≡ length aims.now) }
{
    let mut order = in_rounds(alloc, aims)?;
    let marks = marks_of(alloc, &order, aims.len())?;
    add_others(&mut order, &marks)?;
    Ok((order, marks))
}

/// Adds the places that are not marked.
fn add_others(order: &mut Vec<usize>, marks: &[bool]) -> Result<(), AllocError>
    ensures { OnOk result (order.new.items ≡ order.old.items
        ++ filter (λ p. not (marked marks.now p)) (range_with_len 0 (length marks.now))) }
{
    'places: for place in 0..marks.len() {
        if !marks[place] {
            order.push(place)?;
        }
    }
    Ok(())
}
