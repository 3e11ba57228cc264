//! How many of each node's commands are wanted.
ghost use Rattle.std.specs.Prelude.{◌≡◌, ℕ, ◌<◌, ◌||◌, [], List, Option, length, IfOk};
ghost use Rattle.doc_nodes.specs.Looks.{marked};
ghost use Rattle.doc_nodes.specs.Graphs.{IsGraphOf};
ghost use Rattle.doc_nodes.specs.Imports.{order};
ghost use Rattle.doc_nodes.specs.Wanted.{is_at, is_aimed, wants, hands_on, reached, wanted_at, wanted_counts};
ghost use Rattle.doc_nodes.specs.Reach.{AreReached};

use crate::graph::ImportGraph;
use crate::node::Nodes;
use crate::prefix::own_wanted;
use std::alloc::{AllocError, Global};

/// How many commands of each node are wanted, by name: all of a required node, and of each import,
/// direct or not, of an ordered node that has a wanted command; else those up to the last visible
/// one.
pub fn wanted_counts(
    alloc: Global,
    nodes: &Nodes,
    graph: &ImportGraph,
) -> Result<Vec<usize>, AllocError>
    requires { IsGraphOf nodes.now graph.now }
    ensures { IfOk result (λ counts. counts.items ≡ wanted_counts nodes.now) }
{
    let marks = reached(alloc, nodes, graph)?;
    let mut counts = Vec::new(alloc);
    'places: for place in 0..nodes.len() {
        counts.push(wanted_at(nodes, &marks, place))?;
    }
    Ok(counts)
}

fn wanted_at(nodes: &Nodes, marks: &[bool], place: usize) -> usize
    requires { AreReached nodes.now marks.now (reached nodes.now (order nodes.now)) }
    ensures { result ≡ wanted_at nodes.now place }
{
    match nodes.at(place) {
        None => 0,
        Some((_, node)) if is_marked(marks, place) => node.entries.get().len(),
        Some((_, node)) => own_wanted(node),
    }
}

/// A mark for each node that is reached by imports from an ordered node with a wanted command.
fn reached(alloc: Global, nodes: &Nodes, graph: &ImportGraph) -> Result<Vec<bool>, AllocError>
    requires { IsGraphOf nodes.now graph.now }
    ensures { IfOk result (λ marks. AreReached nodes.now marks.items
        (reached nodes.now (order nodes.now))) }
{
    let mut marks = vec![in alloc; false; nodes.len()]?;
    mark_reached(&mut marks, nodes, graph);
    Ok(marks)
}

/// Nodes are looked at from the last in the order of imports on, so that each is looked at when all
/// its importers were.
fn mark_reached(marks: &mut [bool], nodes: &Nodes, graph: &ImportGraph)
    requires graph { IsGraphOf nodes.now graph.now }
    requires marks { AreReached nodes.now marks.old [] }
    ensures { AreReached nodes.now marks.new (reached nodes.now (order nodes.now)) }
{
    let order = graph.order();
    let mut at = order.len();
    'back: while 0 < at {
        at -= 1;
        if hands_on(nodes, graph, marks, order[at]) {
            mark_aims(marks, graph.aims(order[at]));
        }
    }
}

/// Whether the imports of the node at the place are wanted as a whole.
fn hands_on(nodes: &Nodes, graph: &ImportGraph, marks: &[bool], place: usize) -> bool
    requires { IsGraphOf nodes.now graph.now }
    ensures { (reached : List (Option ℕ)) → AreReached nodes.now marks.now reached
        → result ≡ hands_on nodes.now reached place }
{
    graph.is_ordered(place) && (wants(nodes, place) || is_marked(marks, place))
}

/// Whether the node at the place wants a command by itself.
fn wants(nodes: &Nodes, place: usize) -> bool
    ensures { result ≡ wants nodes.now place }
{
    match nodes.at(place) {
        None => false,
        Some((_, node)) => 0 < own_wanted(node),
    }
}

fn is_marked(marks: &[bool], place: usize) -> bool
    ensures { result ≡ marked marks.now place }
{
    place < marks.len() && marks[place]
}

/// Marks the imports.
fn mark_aims(marks: &mut [bool], aims: &[Option<usize>])
    ensures { (p : ℕ) → p < length marks.old
        → marked marks.new p ≡ (is_aimed aims.now p || marked marks.old p) }
{
    'aims: for aim in aims {
        mark_aim(marks, *aim);
    }
}

fn mark_aim(marks: &mut [bool], aim: Option<usize>)
    ensures { (p : ℕ) → p < length marks.old
        → marked marks.new p ≡ (is_at p aim || marked marks.old p) }
{
    if let Some(place) = aim
        && place < marks.len()
    {
        marks[place] = true;
    }
}
