//! Which nodes import a node.
ghost use Rattle.std.specs.Prelude.{◌≡◌, ℕ, ◌<◌, ◌≤◌, [], length, IfOk, OnOk};
ghost use Rattle.doc_nodes.specs.Importers.{list_at, AreImporters, Adds, AddsAll};

use sqlite_items::Items;
use std::alloc::{AllocError, Global};

/// The importers of each node.
pub(crate) fn importers_of(
    alloc: Global,
    rows: &[Items<Option<usize>>],
) -> Result<Vec<Items<usize>>, AllocError>
    ensures { IfOk result (λ lists. AreImporters rows.now lists.items) }
{
    let mut lists = empty_lists(alloc, rows.len())?;
    'nodes: for (node, aims) in rows.iter().enumerate() {
        add_all(&mut lists, aims.as_slice(), node)?;
    }
    Ok(lists)
}

fn empty_lists(alloc: Global, count: usize) -> Result<Vec<Items<usize>>, AllocError>
    ensures len { IfOk result (λ lists. length lists.items ≡ count) }
    ensures empty { IfOk result (λ lists. (p : ℕ) → list_at lists.items p ≡ []) }
{
    let mut lists = Vec::new(alloc);
    'lists: for _ in 0..count {
        lists.push(Items::new(alloc))?;
    }
    Ok(lists)
}

/// Adds the node to the importers of each of its imports that is a node.
fn add_all(
    lists: &mut [Items<usize>],
    aims: &[Option<usize>],
    node: usize,
) -> Result<(), AllocError>
    ensures { OnOk result (AddsAll aims.now node lists.old lists.new) }
{
    'aims: for aim in aims {
        if let Some(place) = aim {
            add(lists, *place, node)?;
        }
    }
    Ok(())
}

fn add(lists: &mut [Items<usize>], place: usize, node: usize) -> Result<(), AllocError>
    ensures { OnOk result (Adds place node lists.old lists.new) }
{
    if place < lists.len() {
        lists[place].push(node)?;
    }
    Ok(())
}
