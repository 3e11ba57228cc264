//! What a node has from its imports.
ghost use Rattle.std.specs.Prelude.{◌≡◌, ◌++◌, IfOk, OnOk, zip, option_to_list};
ghost use Rattle.std.specs.Option.{option_copied, option_map};
ghost use Rattle.doc_nodes.specs.Looks.{met_by};
ghost use Rattle.pide_build.specs.Handed.{bad_by, handed_by, imported_by, imports_by};

use doc_nodes::{ImportGraph, Shared};
use joined_results::both;
use language::{Imported, Imports};
use sqlite_items::Items;
use std::alloc::{AllocError, Global};

/// Whether an import is a node that is ordered.
fn is_met(graph: &ImportGraph, aim: Option<usize>) -> bool
    ensures { result ≡ met_by graph.now.marks aim }
{
    match aim {
        Some(place) => graph.is_ordered(place),
        None => false,
    }
}

/// The first of these imports that is no node, or one that is not ordered.
fn first_bad<'a>(
    graph: &ImportGraph,
    names: &'a [Items<char>],
    aims: &[Option<usize>],
) -> Option<&'a Items<char>>
    ensures { option_copied result ≡ bad_by graph.now.marks (zip names.entry.now aims.now) }
{
    let mut more = names;
    let mut rest = aims;
    'imports: while let [name, more_names @ ..] = more {
        let [aim, more_aims @ ..] = rest else {
            return None;
        };
        if !is_met(graph, *aim) {
            return Some(name);
        }
        more = more_names;
        rest = more_aims;
    }
    None
}

/// The state behind the node at a place, if there is one.
fn handed_on<S>(
    behind: &[Option<Shared<S>>],
    aim: Option<usize>,
) -> Result<Option<Shared<S>>, AllocError>
    ensures { IfOk result (λ state. state ≡ handed_by behind.now aim) }
{
    let Some(place) = aim else {
        return Ok(None);
    };
    match behind.get(place) {
        Some(Some(state)) => Ok(Some(state.copy()?)),
        _ => Ok(None),
    }
}

/// The imports with their states, in the header's order.
fn all_imported<S: Drop>(
    alloc: Global,
    behind: &[Option<Shared<S>>],
    names: &[Items<char>],
    aims: &[Option<usize>],
) -> Result<Items<Imported<S>>, AllocError>
    ensures { IfOk result (λ all. all ≡ imported_by behind.now (zip names.now aims.now)) }
{
    let mut all = Items::new(alloc);
    let mut more = names;
    let mut rest = aims;
    'imports: while let [name, more_names @ ..] = more {
        let [aim, more_aims @ ..] = rest else {
            return Ok(all);
        };
        add(alloc, &mut all, name, handed_on(behind, *aim)?)?;
        more = more_names;
        rest = more_aims;
    }
    Ok(all)
}

/// Adds an import with its state, if there is one.
fn add<S: Drop>(
    alloc: Global,
    all: &mut Items<Imported<S>>,
    name: &Items<char>,
    state: Option<Shared<S>>,
) -> Result<(), AllocError>
    ensures { OnOk result (all.new ≡ all.old ++ option_to_list (option_map
        (λ s. record { name = name.now; state = s }) state)) }
{
    if let Some(state) = state {
        let (name, state) = both(Items::from_slice(alloc, name.as_slice()), Ok(state))?;
        all.push(Imported { name, state })?;
    }
    Ok(())
}

/// What a node has from imports of these names, at these places.
pub(crate) fn imports_of<S: Drop>(
    alloc: Global,
    graph: &ImportGraph,
    behind: &[Option<Shared<S>>],
    names: &[Items<char>],
    aims: &[Option<usize>],
) -> Result<Imports<S>, AllocError>
    ensures { IfOk result (λ imports. imports
        ≡ imports_by graph.now.marks behind.now (zip names.now aims.now)) }
{
    match first_bad(graph, names, aims) {
        Some(name) => Ok(Imports::Bad(Items::from_slice(alloc, name.as_slice())?)),
        None => Ok(Imports::Ordered(all_imported(alloc, behind, names, aims)?)),
    }
}
