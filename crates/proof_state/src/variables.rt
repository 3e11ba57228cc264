ghost use Rattle.std.specs.Prelude.{◌≡◌, [], ◌∷◌, IfOk};
ghost use Rattle.std.specs.List.{list_any};
ghost use Rattle.std.specs.Str.{bytes_eq};

use joined_results::both;
use nj_formula::Name;
use shared_map::{ListItems, SharedList};
use std::alloc::{AllocError, Global};
use std::marker::Model;
use theory_ctx::NameSet;

/// The names that a block fixes, the newest first. Contracts see them as this list. A copy shares
/// all with its source.
#[derive(Drop)]
pub(crate) struct Variables {
    all: SharedList<Name>,
    /// The same names.
    names: NameSet,
}

impl Model for Variables {
    ghost use Rattle.std.specs.Prelude.{ℕ, List};
    ghost use Rattle.proof_state.specs.Kept.{AreListed};

    ghost Value = { List (List ℕ) };

    ghost view = { λ variables. variables.all };

    ghost invariant = { λ variables. AreListed variables.names variables.all };
}

impl Variables {
    /// No names, which take no memory.
    pub(crate) fn new() -> Variables
        ensures { result ≡ [] }
    {
        Variables {
            all: SharedList::new(),
            names: NameSet::new(),
        }
    }

    /// The same names, in the same memory.
    pub(crate) fn copy(&self) -> Result<Variables, AllocError>
        ensures { IfOk result (λ variables. variables ≡ self.now) }
    {
        let (all, names) = both(self.all.copy(), self.names.copy())?;
        Ok(Variables { all, names })
    }

    /// These and a newer one.
    pub(crate) fn with_first(&self, alloc: Global, name: Name) -> Result<Variables, AllocError>
        ensures { IfOk result (λ variables. variables ≡ name ∷ self.now) }
    {
        let names = self.names.with(alloc, &name);
        let (all, names) = both(self.all.with_first(alloc, name), names)?;
        Ok(Variables { all, names })
    }

    /// They themselves, lent.
    pub(crate) fn iter(&self) -> ListItems<'_, Name>
        ensures { result ≡ self.now }
    {
        self.all.iter()
    }

    /// Whether the name is one of them.
    pub(crate) fn has(&self, name: &str) -> bool
        ensures { result ≡ list_any (λ y. bytes_eq y name.now) self.now }
    {
        self.names.has(name)
    }
}
