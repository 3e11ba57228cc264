ghost use Rattle.std.specs.Prelude.{◌≡◌, ◌==◌, [], ◌∷◌, length, slice_get, drop, IfOk};
ghost use Rattle.std.specs.Option.{option_copied};

use crate::balance::joined;
use crate::items::ListItems;
use crate::tree::Tree;
use std::alloc::{AllocError, Global};
use std::marker::Model;
use std::sync::Arc;

/// A persistent list that grows and shrinks at its front. Contracts see it as the list. A copy
/// shares all with its source, and a change all but one path, so the old version costs nothing to
/// keep.
#[derive(Drop)]
pub struct SharedList<T> {
    tree: Tree<T>,
}

impl<T> Model for SharedList<T> {
    ghost use Rattle.std.specs.Prelude.{List};
    ghost use Rattle.std.specs.Coded.{coded_list};

    ghost Value = { List T };

    ghost coded = { coded_list T.code };

    ghost view = { λ list. list.tree };
}

impl<T: Drop> SharedList<T> {
    /// The list of nothing, which takes no memory.
    pub fn new() -> SharedList<T>
        ensures { result ≡ [] }
    {
        SharedList { tree: Tree::new() }
    }

    /// The same list, in the same memory.
    pub fn copy(&self) -> Result<SharedList<T>, AllocError>
        ensures { IfOk result (λ list. list ≡ self.now) }
    {
        Ok(SharedList {
            tree: self.tree.copy()?,
        })
    }

    /// How many items it has.
    pub fn len(&self) -> usize
        ensures { result ≡ length self.now }
    {
        self.tree.len()
    }

    /// Whether it has no items.
    pub fn is_empty(&self) -> bool
        ensures { result ≡ (length self.now == 0) }
    {
        self.tree.len() == 0
    }

    /// The item at this place, from 0.
    pub fn get(&self, place: usize) -> Option<&T>
        ensures { option_copied result ≡ slice_get self.now place }
    {
        self.tree.get(place)
    }

    /// The items from the first on, lent.
    pub fn iter(&self) -> ListItems<'_, T>
        ensures { result ≡ self.now }
    {
        ListItems {
            tree: &self.tree,
            from: 0,
        }
    }

    /// The list with an item more, before all others.
    pub fn with_first(&self, alloc: Global, item: T) -> Result<SharedList<T>, AllocError>
        ensures { IfOk result (λ list. list ≡ item ∷ self.now) }
    {
        let tree = with_first(alloc, item, &self.tree)?;
        Ok(SharedList { tree })
    }

    /// The list without its first item.
    pub fn rest(&self, alloc: Global) -> Result<SharedList<T>, AllocError>
        ensures { IfOk result (λ list. list ≡ drop 1 self.now) }
    {
        Ok(SharedList {
            tree: rest(alloc, &self.tree)?,
        })
    }
}

fn with_first<T: Drop>(alloc: Global, item: T, tree: &Tree<T>) -> Result<Tree<T>, AllocError>
    ensures { IfOk result (λ more. more ≡ item ∷ tree.now) }
{
    let item = Arc::new(alloc, item).map_err(AllocError::from)?;
    joined(alloc, &Tree::new(), &item, tree)
}

fn rest<T: Drop>(alloc: Global, tree: &Tree<T>) -> Result<Tree<T>, AllocError>
    ensures { IfOk result (λ less. less ≡ drop 1 tree.now) }
{
    let Some(parts) = tree.parts() else {
        return Ok(Tree::new());
    };
    if parts.left.len() == 0 {
        return parts.right.copy();
    }
    let left = rest(alloc, parts.left)?;
    joined(alloc, &left, parts.item, parts.right)
}
