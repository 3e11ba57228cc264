ghost use Rattle.std.specs.Prelude.{◌≡◌, ◌∷◌, ◌++◌, IfOk};
ghost use Rattle.std.specs.Arc.{arc_value};

use crate::tree::{Parts, Tree};
use joined_results::both;
use std::alloc::{AllocError, Global};
use std::sync::Arc;

/// One side of a fork is at most by so many forks higher than the other.
const SLACK: usize = 1;

/// The tree of these parts, of whatever heights. It shares what it can of them. Where a side is too
/// high, the rest is joined to its inner part, which may grow by that.
pub(crate) fn joined<T: Drop>(
    alloc: Global,
    left: &Tree<T>,
    item: &Arc<T>,
    right: &Tree<T>,
) -> Result<Tree<T>, AllocError>
    ensures { IfOk result (λ tree. tree ≡ left.now ++ arc_value item.now ∷ right.now) }
{
    if is_high(left, right) {
        if let Some(parts) = left.parts() {
            let inner = joined(alloc, parts.right, item, right)?;
            return right_grown(alloc, parts.left, parts.item, inner);
        }
    }
    if is_high(right, left) {
        if let Some(parts) = right.parts() {
            let inner = joined(alloc, left, item, parts.left)?;
            return left_grown(alloc, inner, parts.item, parts.right);
        }
    }
    Tree::fork(alloc, left, item, right)
}

/// The tree of these parts, of which the left one may be a little too high.
pub(crate) fn left_grown<T: Drop>(
    alloc: Global,
    left: Tree<T>,
    item: &Arc<T>,
    right: &Tree<T>,
) -> Result<Tree<T>, AllocError>
    ensures { IfOk result (λ tree. tree ≡ left ++ arc_value item.now ∷ right.now) }
{
    if is_high(&left, right) {
        if let Some(parts) = left.parts() {
            return left_raised(alloc, parts, item, right);
        }
    }
    let (item, right) = both(Arc::try_clone(item), right.copy())?;
    Tree::of(alloc, left, item, right)
}

/// The tree of these parts, of which the right one may be a little too high.
pub(crate) fn right_grown<T: Drop>(
    alloc: Global,
    left: &Tree<T>,
    item: &Arc<T>,
    right: Tree<T>,
) -> Result<Tree<T>, AllocError>
    ensures { IfOk result (λ tree. tree ≡ left.now ++ arc_value item.now ∷ right) }
{
    if is_high(&right, left) {
        if let Some(parts) = right.parts() {
            return right_raised(alloc, left, item, parts);
        }
    }
    let (left, item) = both(left.copy(), Arc::try_clone(item))?;
    Tree::of(alloc, left, item, right)
}

/// One list behind another.
pub(crate) fn appended<T: Drop>(
    alloc: Global,
    left: &Tree<T>,
    right: &Tree<T>,
) -> Result<Tree<T>, AllocError>
    ensures { IfOk result (λ tree. tree ≡ left.now ++ right.now) }
{
    match right.parts() {
        None => left.copy(),
        Some(parts) => {
            let left = appended(alloc, left, parts.left)?;
            joined(alloc, &left, parts.item, parts.right)
        }
    }
}

/// Whether one part is too high beside the other.
fn is_high<T: Drop>(one: &Tree<T>, other: &Tree<T>) -> bool {
    one.height() > other.height().saturating_add(SLACK)
}

/// Whether two rotations are wanted: the inner part is higher than the outer one.
fn is_inner_high<T: Drop>(inner: &Tree<T>, outer: &Tree<T>) -> bool {
    inner.height() > outer.height()
}

/// A rotation that brings up the left part, or what is inside it.
fn left_raised<T: Drop>(
    alloc: Global,
    left: Parts<T>,
    item: &Arc<T>,
    right: &Tree<T>,
) -> Result<Tree<T>, AllocError>
    ensures { IfOk result (λ tree. tree ≡ left.entry.left.now ++ arc_value left.entry.item.now
        ∷ left.entry.right.now ++ arc_value item.now ∷ right.now) }
{
    match left.right.parts() {
        Some(inner) if is_inner_high(left.right, left.left) => {
            let left = Tree::fork(alloc, left.left, left.item, inner.left);
            let (left, right) = both(left, Tree::fork(alloc, inner.right, item, right))?;
            Tree::fork(alloc, &left, inner.item, &right)
        }
        _ => {
            let right = Tree::fork(alloc, left.right, item, right)?;
            Tree::fork(alloc, left.left, left.item, &right)
        }
    }
}

/// A rotation that brings up the right part, or what is inside it.
fn right_raised<T: Drop>(
    alloc: Global,
    left: &Tree<T>,
    item: &Arc<T>,
    right: Parts<T>,
) -> Result<Tree<T>, AllocError>
    ensures { IfOk result (λ tree. tree ≡ (left.now ++ arc_value item.now
        ∷ right.entry.left.now) ++ arc_value right.entry.item.now ∷ right.entry.right.now) }
{
    match right.left.parts() {
        Some(inner) if is_inner_high(right.left, right.right) => {
            let left = Tree::fork(alloc, left, item, inner.left);
            let right = Tree::fork(alloc, inner.right, right.item, right.right);
            let (left, right) = both(left, right)?;
            Tree::fork(alloc, &left, inner.item, &right)
        }
        _ => {
            let left = Tree::fork(alloc, left, item, right.left)?;
            Tree::fork(alloc, &left, right.item, right.right)
        }
    }
}
