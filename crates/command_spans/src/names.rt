//! The aliases of a text.

ghost use Rattle.std.specs.Prelude.{◌≡◌, IfOk};
ghost use Rattle.std.specs.Bool.{OnTrue};

use sqlite_items::Items;
use std::alloc::{AllocError, Global};
use std::marker::Model;
use std::sync::Arc;

/// Aliases, in memory that the texts under them share. Contracts see their list.
#[derive(Debug, Drop)]
pub(crate) struct Names {
    names: Arc<Items<Items<char>>>,
}

impl Model for Names {
    ghost use Rattle.std.specs.Prelude.{ℕ, List};
    ghost use Rattle.std.specs.Arc.{arc_value};

    ghost Value = { List (List ℕ) };

    ghost view = { λ n. arc_value n.names };
}

impl Names {
    /// A copy of these names.
    pub(crate) fn of(alloc: Global, names: &[Items<char>]) -> Result<Names, AllocError>
        ensures { IfOk result (λ n. n ≡ names.now) }
    {
        let mut copies = Items::new(alloc);
        for name in names {
            copies.push(Items::from_slice(alloc, name.as_slice())?)?;
        }
        Ok(Names {
            names: Arc::new(alloc, copies)?,
        })
    }

    /// The same names, in the same memory.
    pub(crate) fn share(&self) -> Result<Names, AllocError>
        ensures { IfOk result (λ n. n ≡ self.now) }
    {
        Ok(Names {
            names: Arc::try_clone(&self.names)?,
        })
    }

    /// The names.
    pub(crate) fn as_slice(&self) -> &[Items<char>]
        ensures { result.now ≡ self.now }
    {
        self.names.as_slice()
    }
}

/// Whether both lists have the same names in the same order.
pub(crate) fn same_names(names: &[Items<char>], others: &[Items<char>]) -> bool
    ensures { OnTrue result (names.now ≡ others.now) }
{
    if names.len() != others.len() {
        return false;
    }
    for (i, name) in names.iter().enumerate() {
        if name.as_slice() != others[i].as_slice() {
            return false;
        }
    }
    true
}
