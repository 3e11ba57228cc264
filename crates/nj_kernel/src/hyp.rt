ghost use Rattle.std.specs.Prelude.{◌≡◌, IfOk};
ghost use Rattle.nj_formula.specs.Meaning.{meaning};
ghost use Rattle.nj_kernel.specs.Order.{order};

use crate::key::key_of;
use nj_formula::{Formula, Shared};
use sqlite_items::Items;
use std::alloc::{AllocError, Global};
use std::cmp::Ordering;
use std::marker::Model;

/// A formula that a theorem assumes, with the key of what it says. Contracts see it as the formula.
#[derive(Debug)]
pub struct Hyp {
    formula: Formula,
    key: Shared<Items<usize>>,
}

impl Model for Hyp {
    ghost use Rattle.std.specs.Prelude.{◌≡◌};
    ghost use Rattle.std.specs.Coded.{codes};
    ghost use Rattle.nj_formula.specs.declared.formula.Formula.{Formula as Held};
    ghost use Rattle.nj_formula.specs.contracts.formula.Formula as held;
    ghost use Rattle.nj_formula.specs.Meaning.{meaning};
    ghost use Rattle.nj_kernel.specs.Keys.{statement_key};

    ghost Value = { Held };

    ghost coded = { Prim.hlevel (codes, held.the_row.coded) };

    ghost view = { λ h. h.formula };

    ghost invariant = { λ h. h.key ≡ statement_key (meaning h.formula) };
}

/// By hand, so that an assumption is let go by one call wherever it ends.
impl Drop for Hyp {
    fn drop(self) {
        let Hyp { formula, key } = self;
        drop(formula);
        drop(key);
    }
}

impl Hyp {
    pub(crate) fn new(alloc: Global, formula: &Formula) -> Result<Hyp, AllocError>
        ensures { IfOk result (λ h. h ≡ formula.now) }
    {
        let key = Shared::new(alloc, key_of(alloc, formula)?)?;
        let formula = formula.copy(alloc)?;
        Ok(Hyp { formula, key })
    }

    /// The formula that is assumed.
    pub fn formula(&self) -> &Formula
        ensures { result.now ≡ self.now }
    {
        &self.formula
    }

    pub(crate) fn copy(&self, alloc: Global) -> Result<Hyp, AllocError>
        ensures { IfOk result (λ h. h ≡ self.now) }
    {
        let formula = self.formula.copy(alloc)?;
        let key = self.key.copy()?;
        Ok(Hyp { formula, key })
    }

    /// How the two stand in the order of assumptions; Equal where they say the same.
    pub(crate) fn order(&self, other: &Hyp) -> Ordering
        ensures { result ≡ order (meaning self.now) (meaning other.now) }
    {
        let key = self.key.get().as_slice();
        key.cmp(&other.key.get().as_slice())
    }
}
