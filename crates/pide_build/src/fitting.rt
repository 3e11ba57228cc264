//! Which nodes fit into the next round.
ghost use Rattle.std.specs.Prelude.{◌≡◌, ℕ, ◌<◌, ◌≤◌, ◌||◌, true, false, length, slice_index_or, vec_len};
ghost use Rattle.std.specs.List.{list_all};
ghost use Rattle.text_words.specs.Members.{has};
ghost use Rattle.doc_nodes.specs.Looks.{aims_at, marked, met_by};
ghost use Rattle.pide_build.specs.Batches.{begins_by};

use doc_nodes::ImportGraph;

/// Whether an import is a node that is marked.
fn is_met(aim: Option<usize>, marks: &[bool]) -> bool
    ensures { result ≡ met_by marks.now aim }
{
    match aim {
        Some(place) => place < marks.len() && marks[place],
        None => false,
    }
}

/// Whether all imports of the node at the place are marked.
fn fits(graph: &ImportGraph, marks: &[bool], place: usize) -> bool
    ensures { result ≡ list_all (met_by marks.now) (aims_at graph.now.aims place) }
{
    let mut rest = graph.aims(place);
    'aims: while let [aim, more @ ..] = rest {
        if !is_met(*aim, marks) {
            return false;
        }
        rest = more;
    }
    true
}

/// Whether the first of these nodes is ordered, if there is one.
pub(crate) fn begins(graph: &ImportGraph, places: &[usize]) -> bool
    ensures { result ≡ begins_by graph.now.marks places.now }
{
    match places {
        [first, ..] => graph.is_ordered(*first),
        [] => false,
    }
}

/// How many of the first nodes fit, of which one does.
pub(crate) fn fitting(graph: &ImportGraph, marks: &[bool], places: &[usize]) -> usize
    requires { 0 < length places.now }
    ensures within { (0 < result) × (result ≤ length places.now) }
    ensures fit { (q : ℕ) → 0 < q → q < result → list_all (met_by marks.now)
        (aims_at graph.now.aims (slice_index_or places.now q 0)) ≡ true }
    ensures stop { result < length places.now → list_all (met_by marks.now)
        (aims_at graph.now.aims (slice_index_or places.now result 0)) ≡ false }
{
    let mut count = 1;
    'fitting: while count < places.len() && fits(graph, marks, places[count]) {
        count += 1;
    }
    count
}

/// The marks, with those of the nodes at these places.
pub(crate) fn with_marks(marks: Vec<bool>, places: &[usize]) -> Vec<bool>
    requires { (p : ℕ) → has places.now p ≡ true → p < vec_len marks }
    ensures marked { (p : ℕ) → marked result.items p ≡ (marked marks.items p || has places.now p) }
    ensures length { vec_len result ≡ vec_len marks }
{
    let mut marks = marks;
    'places: for place in places {
        marks[*place] = true;
    }
    marks
}
