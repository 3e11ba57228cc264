ghost use Rattle.std.specs.Prelude.{◌≡◌, IfOk};
ghost use Rattle.std.specs.Arc.{arc_value};
ghost use Rattle.shared_map.specs.Pairs.{IsSorted};
ghost use Rattle.shared_map.specs.Cuts.{before, behind, at_key};
ghost use Rattle.shared_map.specs.Changes.{put, without, united};

use crate::balance::{appended, joined, left_grown, right_grown};
use crate::cut::{Cut, Exactly};
use crate::tree::Tree;
use joined_results::both;
use std::alloc::{AllocError, Global};
use std::cmp::Ordering;
use std::sync::Arc;

/// The pairs with this new one in its place.
pub(crate) fn with_new<K: Ord + Drop, V: Drop>(
    alloc: Global,
    pairs: &Tree<(K, V)>,
    key: K,
    value: V,
) -> Result<Tree<(K, V)>, AllocError>
    requires { IsSorted K.cmp pairs.now }
    ensures { IfOk result (λ made. made ≡ put K.cmp (key, value) pairs.now) }
{
    let pair = Arc::new(alloc, (key, value))?;
    with_pair(alloc, pairs, &pair)
}

/// The pairs with this one in its place.
fn with_pair<K: Ord + Drop, V: Drop>(
    alloc: Global,
    pairs: &Tree<(K, V)>,
    pair: &Arc<(K, V)>,
) -> Result<Tree<(K, V)>, AllocError>
    requires { IsSorted K.cmp pairs.now }
    ensures { IfOk result (λ made. made ≡ put K.cmp (arc_value pair.now) pairs.now) }
{
    let Some(parts) = pairs.parts() else {
        return Tree::fork(alloc, pairs, pair, pairs);
    };
    let other: &(K, V) = parts.item;
    match other.0.cmp(&pair.0) {
        Ordering::Less => {
            let right = with_pair(alloc, parts.right, pair)?;
            right_grown(alloc, parts.left, parts.item, right)
        }
        Ordering::Greater => {
            let left = with_pair(alloc, parts.left, pair)?;
            left_grown(alloc, left, parts.item, parts.right)
        }
        Ordering::Equal => Tree::fork(alloc, parts.left, pair, parts.right),
    }
}

/// The pairs before the cut.
pub(crate) fn part_before<K: Ord + Drop, V: Drop, C: Cut<K>>(
    alloc: Global,
    pairs: &Tree<(K, V)>,
    cut: &C,
) -> Result<Tree<(K, V)>, AllocError>
    requires { IsSorted K.cmp pairs.now }
    ensures { IfOk result (λ made. made ≡ before (C.place cut.now) pairs.now) }
{
    let Some(parts) = pairs.parts() else {
        return Ok(Tree::new());
    };
    let pair: &(K, V) = parts.item;
    match cut.place(&pair.0) {
        Ordering::Less => {
            let right = part_before(alloc, parts.right, cut)?;
            joined(alloc, parts.left, parts.item, &right)
        }
        Ordering::Equal | Ordering::Greater => part_before(alloc, parts.left, cut),
    }
}

/// The pairs behind the cut.
pub(crate) fn part_behind<K: Ord + Drop, V: Drop, C: Cut<K>>(
    alloc: Global,
    pairs: &Tree<(K, V)>,
    cut: &C,
) -> Result<Tree<(K, V)>, AllocError>
    requires { IsSorted K.cmp pairs.now }
    ensures { IfOk result (λ made. made ≡ behind (C.place cut.now) pairs.now) }
{
    let Some(parts) = pairs.parts() else {
        return Ok(Tree::new());
    };
    let pair: &(K, V) = parts.item;
    match cut.place(&pair.0) {
        Ordering::Greater => {
            let left = part_behind(alloc, parts.left, cut)?;
            joined(alloc, &left, parts.item, parts.right)
        }
        Ordering::Equal | Ordering::Less => part_behind(alloc, parts.right, cut),
    }
}

/// The pairs but for that of the key.
pub(crate) fn without_key<K: Ord + Drop, V: Drop>(
    alloc: Global,
    pairs: &Tree<(K, V)>,
    key: &K,
) -> Result<Tree<(K, V)>, AllocError>
    requires { IsSorted K.cmp pairs.now }
    ensures { IfOk result (λ made. made ≡ without K.cmp key.now pairs.now) }
{
    let (front, back) = cut_at(alloc, pairs, key)?;
    appended(alloc, &front, &back)
}

/// The pairs before the key, and those behind it.
fn cut_at<K: Ord + Drop, V: Drop>(
    alloc: Global,
    pairs: &Tree<(K, V)>,
    key: &K,
) -> Result<(Tree<(K, V)>, Tree<(K, V)>), AllocError>
    requires { IsSorted K.cmp pairs.now }
    ensures front { IfOk result (λ made. made.0 ≡ before (at_key K.cmp key.now) pairs.now) }
    ensures back { IfOk result (λ made. made.1 ≡ behind (at_key K.cmp key.now) pairs.now) }
{
    let cut = Exactly(key);
    let (front, back) = both(
        part_before(alloc, pairs, &cut),
        part_behind(alloc, pairs, &cut),
    )?;
    Ok((front, back))
}

/// The pairs of both. Where both have a key, that of the first is kept.
pub(crate) fn union_of<K: Ord + Drop, V: Drop>(
    alloc: Global,
    pairs: &Tree<(K, V)>,
    others: &Tree<(K, V)>,
) -> Result<Tree<(K, V)>, AllocError>
    requires sorted { IsSorted K.cmp pairs.now }
    requires others_sorted { IsSorted K.cmp others.now }
    ensures { IfOk result (λ made. made ≡ united K.cmp pairs.now others.now) }
{
    if others.len() == 0 {
        return pairs.copy();
    }
    let Some(parts) = pairs.parts() else {
        return others.copy();
    };
    let pair: &(K, V) = parts.item;
    let (front, back) = cut_at(alloc, others, &pair.0)?;
    let left = union_of(alloc, parts.left, &front);
    let sides = both(left, union_of(alloc, parts.right, &back));
    drop((front, back));
    let (left, right) = sides?;
    joined(alloc, &left, parts.item, &right)
}
