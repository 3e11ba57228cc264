//! The key of a node.
ghost use Rattle.std.specs.Prelude.{◌≡◌, ℕ, List, not, map, find, IfOk};
ghost use Rattle.std.specs.Option.{option_copied};
ghost use Rattle.doc_nodes.specs.Rounds.{is_known};
ghost use Rattle.doc_nodes.specs.Graphs.{IsGraphOf};
ghost use Rattle.doc_nodes.specs.Imports.{place_of, ordered_places, is_bad, aims_of};
ghost use Rattle.exec_rules.specs.declared.row.Assigned.{Assigned};
ghost use Rattle.exec_rules.specs.Keys.{last_of, last_at, aimed, key_of};
ghost use Rattle.exec_assign.specs.Found.{AreAssigned};

use doc_nodes::{Entry, ImportGraph, Node, Nodes, Shared};
use exec_rules::{Assigned, Key, Last, Row};
use sqlite_items::Items;
use std::alloc::{AllocError, Global};

/// The key of a node with these imports, when they are assigned.
pub(crate) fn key_of(
    alloc: Global,
    nodes: &Nodes,
    graph: &ImportGraph,
    all: &[Shared<Assigned>],
    node: &Node,
    aims: &[Option<usize>],
) -> Result<Key, AllocError>
    requires graph { IsGraphOf nodes.now graph.now }
    requires aims { aims.now ≡ aims_of nodes.now node.now }
    ensures { (done : List (ℕ × Assigned)) → AreAssigned all.now done
        → IfOk result (λ key. key ≡ key_of nodes.now done node.now) }
{
    match first_bad(nodes, graph, node.imports.get().as_slice(), aims) {
        Some(name) => Ok(Key::BadImport(Items::from_slice(alloc, name.as_slice())?)),
        None => Ok(Key::Lasts(lasts(alloc, nodes, all, aims)?)),
    }
}

/// The first import that is no node, or one that is not ordered.
fn first_bad<'a>(
    nodes: &Nodes,
    graph: &ImportGraph,
    imports: &'a [Items<char>],
    aims: &[Option<usize>],
) -> Option<&'a Items<char>>
    requires graph { IsGraphOf nodes.now graph.now }
    requires aims { aims.now ≡ map (place_of nodes.now) imports.now }
    ensures { option_copied result ≡ find (is_bad nodes.now) imports.now }
{
    'imports: for place in 0..imports.len() {
        if is_bad_aim(nodes, graph, aims[place]) {
            return Some(&imports[place]);
        }
    }
    None
}

fn is_bad_aim(nodes: &Nodes, graph: &ImportGraph, aim: Option<usize>) -> bool
    requires { IsGraphOf nodes.now graph.now }
    ensures { result ≡ not (is_known (ordered_places nodes.now) aim) }
{
    match aim {
        Some(place) => !graph.is_ordered(place),
        None => true,
    }
}

fn lasts(
    alloc: Global,
    nodes: &Nodes,
    all: &[Shared<Assigned>],
    aims: &[Option<usize>],
) -> Result<Items<Last>, AllocError>
    ensures { (done : List (ℕ × Assigned)) → AreAssigned all.now done
        → IfOk result (λ lasts. lasts ≡ map (aimed nodes.now done) aims.now) }
{
    let mut lasts = Vec::new(alloc);
    'imports: for aim in aims {
        lasts.push(aimed(nodes, all, *aim))?;
    }
    Ok(Items::from_vec(lasts))
}

/// What the last command of an import has.
fn aimed(nodes: &Nodes, all: &[Shared<Assigned>], aim: Option<usize>) -> Last
    ensures { (done : List (ℕ × Assigned)) → AreAssigned all.now done
        → result ≡ aimed nodes.now done aim }
{
    match aim {
        Some(place) => last_at(nodes, all, place),
        None => Last::Empty,
    }
}

fn last_at(nodes: &Nodes, all: &[Shared<Assigned>], place: usize) -> Last
    ensures { (done : List (ℕ × Assigned)) → AreAssigned all.now done
        → result ≡ last_at nodes.now done place }
{
    match (nodes.at(place), all.get(place)) {
        (Some((_, node)), Some(assigned)) => last_of(
            node.entries.get().as_slice(),
            assigned.get().rows.as_slice(),
        ),
        (Some((_, node)), None) => last_of(node.entries.get().as_slice(), &[]),
        (None, _) => Last::Empty,
    }
}

/// What the last of these commands has, where the first of them have these rows.
fn last_of(entries: &[Entry], rows: &[Row]) -> Last
    ensures { result ≡ last_of entries.now rows.now }
{
    let Some(last) = entries.len().checked_sub(1) else {
        return Last::Empty;
    };
    match rows.get(last) {
        Some(row) => Last::Made(row.evaluation),
        None => Last::Open,
    }
}
