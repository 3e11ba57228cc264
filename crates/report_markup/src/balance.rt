ghost use Rattle.std.specs.Prelude.{◌≡◌, ◌∷◌, ◌++◌, IfOk};
ghost use Rattle.std.specs.Arc.{arc_value};

use crate::report::Report;
use crate::tree::{Parts, Tree};
use std::alloc::{AllocError, Global};
use std::sync::Arc;

/// One side of a fork is at most this many times as heavy as the other.
const DELTA: usize = 3;

/// One rotation serves where the inner part is less than this many times as heavy as the outer one.
const RATIO: usize = 2;

/// The tree of these parts, of whatever weights. It shares what it can of them.
pub(crate) fn joined(
    alloc: Global,
    left: &Tree,
    report: &Arc<Report>,
    right: &Tree,
) -> Result<Tree, AllocError>
    ensures { IfOk result (λ tree. tree ≡ left.now ++ arc_value report.now ∷ right.now) }
{
    if is_heavy(left, right) {
        if let Some(parts) = left.parts() {
            let right = joined(alloc, parts.right, report, right)?;
            return balanced(alloc, parts.left, parts.report, &right);
        }
    }
    if is_heavy(right, left) {
        if let Some(parts) = right.parts() {
            let left = joined(alloc, left, report, parts.left)?;
            return balanced(alloc, &left, parts.report, parts.right);
        }
    }
    Tree::fork(alloc, left, report, right)
}

/// Whether one part is too heavy beside the other.
fn is_heavy(one: &Tree, other: &Tree) -> bool {
    one.weight() > other.weight().saturating_mul(DELTA)
}

/// Whether two rotations are wanted: the inner part is heavy beside the outer one.
fn is_inner_heavy(inner: &Tree, outer: &Tree) -> bool {
    inner.weight() >= outer.weight().saturating_mul(RATIO)
}

/// The tree of parts of which one may be a little too heavy.
fn balanced(
    alloc: Global,
    left: &Tree,
    report: &Arc<Report>,
    right: &Tree,
) -> Result<Tree, AllocError>
    ensures { IfOk result (λ tree. tree ≡ left.now ++ arc_value report.now ∷ right.now) }
{
    if is_heavy(left, right) {
        if let Some(parts) = left.parts() {
            return left_raised(alloc, parts, report, right);
        }
    }
    if is_heavy(right, left) {
        if let Some(parts) = right.parts() {
            return right_raised(alloc, left, report, parts);
        }
    }
    Tree::fork(alloc, left, report, right)
}

/// A rotation that brings up the left part, or what is inside it.
fn left_raised(
    alloc: Global,
    left: Parts,
    report: &Arc<Report>,
    right: &Tree,
) -> Result<Tree, AllocError>
    ensures { IfOk result (λ tree. tree ≡ left.entry.left.now ++ arc_value left.entry.report.now
        ∷ left.entry.right.now ++ arc_value report.now ∷ right.now) }
{
    match left.right.parts() {
        Some(inner) if is_inner_heavy(left.right, left.left) => {
            let left = Tree::fork(alloc, left.left, left.report, inner.left)?;
            let right = Tree::fork(alloc, inner.right, report, right)?;
            Tree::fork(alloc, &left, inner.report, &right)
        }
        _ => {
            let right = Tree::fork(alloc, left.right, report, right)?;
            Tree::fork(alloc, left.left, left.report, &right)
        }
    }
}

/// A rotation that brings up the right part, or what is inside it.
fn right_raised(
    alloc: Global,
    left: &Tree,
    report: &Arc<Report>,
    right: Parts,
) -> Result<Tree, AllocError>
    ensures { IfOk result (λ tree. tree ≡ (left.now ++ arc_value report.now
        ∷ right.entry.left.now) ++ arc_value right.entry.report.now ∷ right.entry.right.now) }
{
    match right.left.parts() {
        Some(inner) if is_inner_heavy(right.left, right.right) => {
            let left = Tree::fork(alloc, left, report, inner.left)?;
            let right = Tree::fork(alloc, inner.right, right.report, right.right)?;
            Tree::fork(alloc, &left, inner.report, &right)
        }
        _ => {
            let left = Tree::fork(alloc, left, report, right.left)?;
            Tree::fork(alloc, &left, right.report, right.right)
        }
    }
}
