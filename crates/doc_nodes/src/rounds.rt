//! The rounds.
ghost use Rattle.std.specs.Prelude.{◌≡◌, ℕ, ◌<◌, ◌≤◌, ◌||◌, List, [], ◌++◌, true, length, IfOk, OnOk};
ghost use Rattle.std.specs.List.Sorted.{IsStrictlyIncreasing};
ghost use Rattle.text_words.specs.Members.{has};
ghost use Rattle.doc_nodes.specs.Rounds.{round, in_rounds};
ghost use Rattle.doc_nodes.specs.Looks.{marked, AreMarks, Scanned, OfferedAll};
ghost use Rattle.doc_nodes.specs.Importers.{AreImporters};

use crate::importers::importers_of;
use crate::offer::offer;
use sqlite_items::Items;
use std::alloc::{AllocError, Global};

/// The places of the nodes that are ordered, by rounds and in a round by place. Each row has a
/// node's imports: the place of each, or None for one that is no node.
pub fn in_rounds(alloc: Global, rows: &[Items<Option<usize>>]) -> Result<Vec<usize>, AllocError>
    ensures { IfOk result (λ order. order.items ≡ in_rounds rows.now) }
{
    let importers = importers_of(alloc, rows)?;
    let mut marks = vec![in alloc; false; rows.len()]?;
    let mut looked = vec![in alloc; 0usize; rows.len()]?;
    run(alloc, rows, &importers, &mut marks, &mut looked)
}

/// A mark for each of so many places: whether it is one of these.
pub fn marks_of(alloc: Global, places: &[usize], count: usize) -> Result<Vec<bool>, AllocError>
    requires { (p : ℕ) → has places.now p ≡ true → p < count }
    ensures are { IfOk result (λ marks. AreMarks marks.items places.now) }
    ensures len { IfOk result (λ marks. length marks.items ≡ count) }
{
    let mut marks = vec![in alloc; false; count]?;
    mark(&mut marks, places);
    Ok(marks)
}

/// All rounds, from the first on.
fn run(
    alloc: Global,
    rows: &[Items<Option<usize>>],
    importers: &[Items<usize>],
    marks: &mut [bool],
    looked: &mut [usize],
) -> Result<Vec<usize>, AllocError>
    requires marks { length marks.old ≡ length rows.now }
    requires looked { length looked.old ≡ length rows.now }
    requires importers { AreImporters rows.now importers.now }
    requires none { AreMarks marks.old [] }
    requires scanned { Scanned rows.now marks.old looked.old }
    ensures { IfOk result (λ order. order.items ≡ in_rounds rows.now) }
{
    let mut order = Vec::new(alloc);
    let mut last = first_round(alloc, rows, marks, looked)?;
    'rounds: for _ in 0..rows.len() {
        mark(marks, &last);
        order.extend_from_slice(&last)?;
        last = next_round(alloc, rows, importers, marks, looked, &last)?;
    }
    Ok(order)
}

fn mark(marks: &mut [bool], places: &[usize])
    requires { (p : ℕ) → has places.now p ≡ true → p < length marks.old }
    ensures { (p : ℕ) → marked marks.new p ≡ (marked marks.old p || has places.now p) }
{
    'places: for place in places {
        marks[*place] = true;
    }
}

/// The first round: every node is looked at.
fn first_round(
    alloc: Global,
    rows: &[Items<Option<usize>>],
    marks: &[bool],
    looked: &mut [usize],
) -> Result<Vec<usize>, AllocError>
    requires marks { length marks.now ≡ length rows.now }
    requires looked { length looked.old ≡ length rows.now }
    requires none { AreMarks marks.now [] }
    requires scanned { Scanned rows.now marks.now looked.old }
    ensures scanned { Scanned rows.now marks.now looked.new }
    ensures round { IfOk result (λ next. next.items ≡ round rows.now []) }
{
    let mut next = Vec::new(alloc);
    'nodes: for node in 0..rows.len() {
        offer(rows, marks, looked, &mut next, node)?;
    }
    Ok(in_order(next))
}

/// The round after the last one: only what imports a node of the last round can be in it.
fn next_round(
    alloc: Global,
    rows: &[Items<Option<usize>>],
    importers: &[Items<usize>],
    marks: &[bool],
    looked: &mut [usize],
    last: &[usize],
) -> Result<Vec<usize>, AllocError>
    requires marks { length marks.now ≡ length rows.now }
    requires looked { length looked.old ≡ length rows.now }
    requires importers { AreImporters rows.now importers.now }
    requires last { (p : ℕ) → has last.now p ≡ true → p < length rows.now }
    requires scanned { Scanned rows.now marks.now looked.old }
    ensures scanned { Scanned rows.now marks.now looked.new }
    ensures round { IfOk result (λ next. (ordered : List ℕ)
        → AreMarks marks.now (ordered ++ last.now)
        → last.now ≡ round rows.now ordered → next.items ≡ round rows.now (ordered ++ last.now)) }
{
    let mut next = Vec::new(alloc);
    'last: for place in last {
        offer_all(rows, marks, looked, &mut next, importers[*place].as_slice())?;
    }
    Ok(in_order(next))
}

/// Offers each of the nodes.
fn offer_all(
    rows: &[Items<Option<usize>>],
    marks: &[bool],
    looked: &mut [usize],
    next: &mut Vec<usize>,
    nodes: &[usize],
) -> Result<(), AllocError>
    requires nodes { (p : ℕ) → has nodes.now p ≡ true → p < length rows.now }
    requires marks { length marks.now ≡ length rows.now }
    requires looked { length looked.old ≡ length rows.now }
    requires scanned { Scanned rows.now marks.now looked.old }
    ensures scanned { Scanned rows.now marks.now looked.new }
    ensures offered { OnOk result
        (OfferedAll rows.now marks.now nodes.now next.old.items next.new.items) }
{
    'nodes: for node in nodes {
        offer(rows, marks, looked, next, *node)?;
    }
    Ok(())
}

/// The places in order, each once.
fn in_order(mut places: Vec<usize>) -> Vec<usize>
    ensures same { (p : ℕ) → has result.items p ≡ has places.items p }
    ensures rises { IsStrictlyIncreasing result.items }
{
    places.sort_unstable();
    places.dedup();
    places
}
