//! The aliases of each node.
ghost use Rattle.std.specs.Prelude.{◌≡◌, ℕ, ◌<◌, ⊤, [], ◌∷◌, ◌++◌, List, Option, map, length, slice_get, slice_index_or, Some, Ok, IfOk, MatchOption};
ghost use Rattle.std.specs.List.{flat_map};
ghost use Rattle.doc_nodes.specs.Graphs.{IsGraphOf};
ghost use Rattle.doc_nodes.specs.Aliases.{no_aliases, pairs_from, folded, aliases_by, aliases_at};
ghost use Rattle.doc_nodes.specs.Known.{AreKnown};
ghost use Rattle.doc_nodes.specs.declared.inherited.NodeAliases.{NodeAliases};

use crate::alias::Aliases;
use crate::folding::Folding;
use crate::graph::ImportGraph;
use crate::node::Nodes;
use crate::shared::Shared;
use joined_results::both;
use outer_syntax::KeywordPair;
use sqlite_items::Items;
use std::alloc::{AllocError, Global};
use std::mem;

/// The aliases that are in force in a node.
#[derive(Debug, Drop)]
pub struct NodeAliases {
    /// The good pairs, in the order of the fold, each name once.
    pub pairs: Shared<Aliases>,
    /// The name of the first bad pair of the fold.
    pub bad: Option<Items<char>>,
}

/// The aliases of each node, by name. Those of an ordered node are a fold over the aliases of its
/// imports in the header's order, then over its own pairs; those of another come from its own pairs
/// alone. A pair whose target is no command that an alias may stand for, or whose name is there
/// with another target, is bad and left out. Where a node has just what its first import has, they
/// share it.
pub fn aliases_of(
    alloc: Global,
    nodes: &Nodes,
    graph: &ImportGraph,
) -> Result<Vec<NodeAliases>, AllocError>
    requires { IsGraphOf nodes.now graph.now }
    ensures len { IfOk result (λ all. length all.items ≡ length nodes.now) }
    ensures each { IfOk result (λ all. (p : ℕ) → p < length nodes.now
        → slice_get all.items p ≡ Some (aliases_at nodes.now p)) }
{
    let mut all = without_aliases(alloc, nodes.len())?;
    'places: for place in graph.order() {
        let found = aliases_by(alloc, nodes, graph, &all, *place)?;
        drop(mem::replace(&mut all[*place], found));
    }
    Ok(all)
}

/// No aliases, for so many nodes.
fn without_aliases(alloc: Global, count: usize) -> Result<Vec<NodeAliases>, AllocError>
    ensures len { IfOk result (λ all. length all.items ≡ count) }
    ensures none { IfOk result (λ all. (p : ℕ)
        → slice_index_or all.items p no_aliases ≡ no_aliases) }
{
    let nothing = shared(alloc, Aliases::new(alloc))?;
    let all = owners(alloc, &nothing, count);
    drop(nothing);
    all
}

/// So many nodes that share no aliases.
fn owners(
    alloc: Global,
    nothing: &Shared<Aliases>,
    count: usize,
) -> Result<Vec<NodeAliases>, AllocError>
    requires { nothing.now ≡ [] }
    ensures len { IfOk result (λ all. length all.items ≡ count) }
    ensures none { IfOk result (λ all. (p : ℕ)
        → slice_index_or all.items p no_aliases ≡ no_aliases) }
{
    let mut all = Vec::new(alloc);
    'nodes: for _ in 0..count {
        let pairs = nothing.copy()?;
        all.push(NodeAliases { pairs, bad: None })?;
    }
    Ok(all)
}

fn shared(alloc: Global, aliases: Aliases) -> Result<Shared<Aliases>, AllocError>
    ensures { IfOk result (λ pairs. pairs ≡ aliases) }
{
    match Shared::new(alloc, aliases) {
        Ok(pairs) => Ok(pairs),
        Err(_) => Err(AllocError),
    }
}

/// The aliases of the node at the place, by those of its imports.
fn aliases_by(
    alloc: Global,
    nodes: &Nodes,
    graph: &ImportGraph,
    all: &[NodeAliases],
    place: usize,
) -> Result<NodeAliases, AllocError>
    requires { IsGraphOf nodes.now graph.now }
    ensures { (done : List (ℕ × NodeAliases)) → AreKnown all.now done
        → IfOk result (λ found. found ≡ aliases_by nodes.now done place) }
{
    let aims: &[Option<usize>] = if graph.is_ordered(place) {
        graph.aims(place)
    } else {
        &[]
    };
    match nodes.at(place) {
        Some((_, node)) => folded(alloc, all, aims, node.keywords.get().as_slice()),
        None => folded(alloc, all, aims, &[]),
    }
}

/// The fold over the aliases of the imports, then over these pairs.
fn folded(
    alloc: Global,
    all: &[NodeAliases],
    aims: &[Option<usize>],
    keywords: &[KeywordPair],
) -> Result<NodeAliases, AllocError>
    ensures { (done : List (ℕ × NodeAliases)) → AreKnown all.now done → IfOk result (λ found.
        found ≡ folded no_aliases (flat_map (pairs_from done) aims.now
        ++ map (λ pair. (pair.name, pair.target)) keywords.now)) }
{
    let first = first_of(all, aims);
    if let Some(pairs) = first
        && aims.len() == 1
        && keywords.is_empty()
    {
        return with_bad(pairs.copy(), None);
    }
    let (pairs, bad) = from_imports(alloc, all, aims)?
        .with_own(alloc, keywords)?
        .into_parts();
    let count = pairs.len();
    match first {
        Some(base) if base.get().len() == count => {
            drop(pairs);
            with_bad(base.copy(), bad)
        }
        _ => with_bad(shared(alloc, pairs), bad),
    }
}

/// These pairs, and the first bad one's name.
fn with_bad(
    pairs: Result<Shared<Aliases>, AllocError>,
    bad: Option<Items<char>>,
) -> Result<NodeAliases, AllocError>
    ensures pairs { IfOk result (λ made. pairs ≡ Ok made.pairs) }
    ensures bad { IfOk result (λ made. made.bad ≡ bad) }
{
    let (pairs, bad) = both(pairs, Ok(bad))?;
    Ok(NodeAliases { pairs, bad })
}

/// The aliases of the first import, where it is a node.
fn first_of<'a>(all: &'a [NodeAliases], aims: &[Option<usize>]) -> Option<&'a Shared<Aliases>>
    ensures { MatchOption result (⊤) (λ pairs. (q : ℕ) × (rest : List (Option ℕ))
        × (aims.now ≡ Some q ∷ rest) × (pairs.now ≡ (slice_index_or all.now q no_aliases).pairs)) }
{
    let Some(Some(place)) = aims.first() else {
        return None;
    };
    match all.get(*place) {
        Some(aliases) => Some(&aliases.pairs),
        None => None,
    }
}

fn from_imports<'a>(
    alloc: Global,
    all: &'a [NodeAliases],
    aims: &[Option<usize>],
) -> Result<Folding<'a>, AllocError>
    ensures { (done : List (ℕ × NodeAliases)) → AreKnown all.now done
        → IfOk result (λ found. found ≡ folded no_aliases (flat_map (pairs_from done) aims.now)) }
{
    let mut folding = Folding::new(alloc);
    'imports: for aim in aims {
        folding = with_import(alloc, folding, all, *aim)?;
    }
    Ok(folding)
}

fn with_import<'a>(
    alloc: Global,
    folding: Folding<'a>,
    all: &'a [NodeAliases],
    aim: Option<usize>,
) -> Result<Folding<'a>, AllocError>
    ensures { (done : List (ℕ × NodeAliases)) → AreKnown all.now done
        → IfOk result (λ found. found ≡ folded folding.entry (pairs_from done aim)) }
{
    match aim {
        Some(place) if place < all.len() => folding.with_all(alloc, all[place].pairs.get()),
        _ => Ok(folding),
    }
}
