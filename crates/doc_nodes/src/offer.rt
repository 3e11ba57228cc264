//! Whether a node's imports are all ordered, read on from where the last look stopped.
ghost use Rattle.std.specs.Prelude.{◌≡◌, ℕ, ◌<◌, ◌≤◌, true, false, length, slice_index_or, None, OnOk};
ghost use Rattle.doc_nodes.specs.Looks.{met_by, Scanned, Offered};

use sqlite_items::Items;
use std::alloc::AllocError;

/// Whether an import is ordered. One that is no node never is.
fn is_met(aim: Option<usize>, marks: &[bool]) -> bool
    ensures { result ≡ met_by marks.now aim }
{
    match aim {
        Some(place) => place < marks.len() && marks[place],
        None => false,
    }
}

/// The first import from this one on that is not ordered, or the number of imports.
fn first_unmet(aims: &[Option<usize>], marks: &[bool], from: usize) -> usize
    ensures met { (q : ℕ) → from ≤ q → q < result
        → met_by marks.now (slice_index_or aims.now q None) ≡ true }
    ensures unmet { result < length aims.now
        → met_by marks.now (slice_index_or aims.now result None) ≡ false }
{
    let mut at = from;
    'looking: while at < aims.len() && is_met(aims[at], marks) {
        at += 1;
    }
    at
}

/// Adds the node to the next round where it is not ordered and all its imports are.
pub(crate) fn offer(
    rows: &[Items<Option<usize>>],
    marks: &[bool],
    looked: &mut [usize],
    next: &mut Vec<usize>,
    node: usize,
) -> Result<(), AllocError>
    requires node { node < length rows.now }
    requires marks { length marks.now ≡ length rows.now }
    requires looked { length looked.old ≡ length rows.now }
    ensures scanned { Scanned rows.now marks.now looked.old
        → Scanned rows.now marks.now looked.new }
    ensures offered { Scanned rows.now marks.now looked.old
        → OnOk result (Offered rows.now marks.now node next.old.items next.new.items) }
{
    if marks[node] {
        return Ok(());
    }
    let aims = rows[node].as_slice();
    let stop = first_unmet(aims, marks, looked[node]);
    looked[node] = stop;
    if aims.len() <= stop {
        next.push(node)?;
    }
    Ok(())
}
