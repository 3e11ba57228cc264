ghost use Rattle.std.specs.Prelude.{◌≡◌, [], ◌∷◌, ◌++◌, ◌+◌, length, IfOk, MatchOption, slice_get};
ghost use Rattle.std.specs.Option.{option_copied};
ghost use Rattle.std.specs.Arc.{arc_value};

use joined_results::each_of_three;
use std::alloc::{AllocError, Global};
use std::marker::Model;
use std::sync::Arc;

/// A list in a balanced tree, whose parts are shared by the trees that are made of it. Contracts
/// see it as the list.
#[cycle(tree)]
#[derive(Drop)]
pub(crate) struct Tree<T> {
    root: Option<Arc<Fork<T>>>,
}

#[cycle(tree)]
#[derive(Drop)]
struct Fork<T> {
    left: Tree<T>,
    item: Arc<T>,
    /// How many items the fork has.
    len: usize,
    /// How many forks the longest way down from here has, this one with them.
    height: usize,
    right: Tree<T>,
}

impl<T> Model for Tree<T> {
    ghost use Rattle.std.specs.Prelude.{List, length};

    ghost Value = { List T };

    ghost use Rattle.shared_map.specs.Items.{items, IsCounted};

    ghost view = { λ tree. items tree.root };

    ghost invariant = { λ tree. IsCounted tree.root };

    ghost size = { length };

    ghost use Rattle.std.proofs.Common.{arith, length-append};

    ghost size_decreases = { λ tree counted. Prim.grind (arith, length-append) };
}

/// The parts of a tree that has an item.
#[derive(Drop)]
pub(crate) struct Parts<'a, T> {
    pub(crate) left: &'a Tree<T>,
    pub(crate) item: &'a Arc<T>,
    pub(crate) right: &'a Tree<T>,
}

impl<T: Drop> Tree<T> {
    pub(crate) fn new() -> Tree<T>
        ensures { result ≡ [] }
    {
        Tree { root: None }
    }

    pub(crate) fn len(&self) -> usize
        ensures { result ≡ length self.now }
    {
        match &self.root {
            None => 0,
            Some(fork) => fork.len,
        }
    }

    /// How many forks the longest way down has. Balance looks at it alone.
    pub(crate) fn height(&self) -> usize {
        match &self.root {
            None => 0,
            Some(fork) => fork.height,
        }
    }

    /// The item at this place, from 0.
    pub(crate) fn get(&self, place: usize) -> Option<&T>
        ensures { option_copied result ≡ slice_get self.now place }
    {
        let parts = self.parts()?;
        let before = parts.left.len();
        if place < before {
            parts.left.get(place)
        } else if place == before {
            Some(parts.item)
        } else {
            parts.right.get(place - before - 1)
        }
    }

    /// The same list, in the same memory.
    pub(crate) fn copy(&self) -> Result<Tree<T>, AllocError>
        ensures { IfOk result (λ tree. tree ≡ self.now) }
    {
        match &self.root {
            None => Ok(Tree { root: None }),
            Some(fork) => Ok(Tree {
                root: Some(Arc::try_clone(fork)?),
            }),
        }
    }

    pub(crate) fn parts(&self) -> Option<Parts<'_, T>>
        ensures { MatchOption result (self.now ≡ [])
            (λ parts. self.now ≡ parts.left.now ++ arc_value parts.item.now ∷ parts.right.now) }
    {
        match &self.root {
            None => None,
            Some(fork) => {
                let fork: &Fork<T> = fork;
                Some(Parts {
                    left: &fork.left,
                    item: &fork.item,
                    right: &fork.right,
                })
            }
        }
    }

    /// The tree of these parts, as they stand, which it takes.
    pub(crate) fn of(
        alloc: Global,
        left: Tree<T>,
        item: Arc<T>,
        right: Tree<T>,
    ) -> Result<Tree<T>, AllocError>
        ensures { IfOk result (λ tree. tree ≡ left ++ arc_value item ∷ right) }
    {
        let len = len_around(&left, &right)?;
        let height = left.height().max(right.height()).saturating_add(1);
        let fork = Fork {
            left,
            item,
            len,
            height,
            right,
        };
        Ok(Tree {
            root: Some(Arc::new(alloc, fork)?),
        })
    }

    /// The tree of these parts, as they stand, which it shares.
    pub(crate) fn fork(
        alloc: Global,
        left: &Tree<T>,
        item: &Arc<T>,
        right: &Tree<T>,
    ) -> Result<Tree<T>, AllocError>
        ensures { IfOk result (λ tree. tree ≡ left.now ++ arc_value item.now ∷ right.now) }
    {
        let copies = each_of_three(left.copy(), Arc::try_clone(item), right.copy());
        let (left, item, right) = copies?;
        Tree::of(alloc, left, item, right)
    }
}

/// How many items these sides have, and the one between them.
fn len_around<T: Drop>(left: &Tree<T>, right: &Tree<T>) -> Result<usize, AllocError>
    ensures { IfOk result (λ len. len ≡ length left.now + length right.now + 1) }
{
    let sides = left.len().checked_add(right.len()).ok_or(AllocError)?;
    sides.checked_add(1).ok_or(AllocError)
}
