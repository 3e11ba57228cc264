ghost use Rattle.std.specs.Prelude.{◌≡◌, [], ◌∷◌, IfOk};
ghost use Rattle.theory_ctx.specs.Answers.{told_answer};
ghost use Rattle.theory_ctx.specs.Looked.{among};

use crate::lookup::{LongName, Lookup};
use joined_results::both;
use nj_formula::{Formula, Name};
use std::alloc::{AllocError, Global};
use std::cmp::Ordering;

/// A fact's name, with the theory that made it. Facts are ordered by name, then by theory, so that
/// all of one name lie together.
#[derive(Debug, Drop)]
pub struct FactName {
    pub name: Name,
    pub theory: Name,
}

impl FactName {
    /// The name of a fact of a theory, in the same memory.
    pub(crate) fn copied(alloc: Global, theory: &Name, name: &Name) -> Result<FactName, AllocError>
        ensures { IfOk result (λ fact. fact
            ≡ record { name = name.now; theory = theory.now }) }
    {
        let (name, theory) = both(name.copy(alloc), theory.copy(alloc))?;
        Ok(FactName { name, theory })
    }

    /// The name as it is written in other theories.
    pub fn long_name(&self) -> LongName<'_>
        ensures theory { result.theory.now ≡ self.now.theory }
        ensures name { result.name.now ≡ self.now.name }
    {
        LongName {
            theory: self.theory.as_str(),
            name: self.name.as_str(),
        }
    }

    pub(crate) fn found<'a>(&'a self, formula: &'a Formula) -> Lookup<'a>
        ensures { told_answer result ≡ among ((self.now, formula.now) ∷ []) }
    {
        Lookup::Found {
            theory: Some(&self.theory),
            name: &self.name,
            formula,
        }
    }
}

impl PartialEq for FactName {
    ghost use Rattle.std.specs.Ordering.{eq_by_cmp};
    ghost use Rattle.std.proofs.Common.{rules};
    ghost use Rattle.std.specs.Cmp.Rules.{comparing};
    ghost use Rattle.theory_ctx.specs.Order.{by_name, by_name_total};

    ghost eq = { eq_by_cmp by_name };

    ghost laws = { Prim.search (comparing, rules, by_name_total) };

    fn eq(&self, other: &FactName) -> bool {
        self.cmp(other).is_eq()
    }
}

impl Eq for FactName {
    ghost use Rattle.std.proofs.Common.{rules};
    ghost use Rattle.std.specs.Cmp.Rules.{comparing};
    ghost use Rattle.theory_ctx.specs.Order.{by_name_total};

    ghost laws = { Prim.search (comparing, rules, by_name_total) };
}

impl Ord for FactName {
    ghost use Rattle.std.proofs.Common.{rules};
    ghost use Rattle.std.specs.Cmp.Rules.{comparing};
    ghost use Rattle.theory_ctx.specs.Order.{by_name, by_name_total};

    ghost cmp = { by_name };

    ghost total = { by_name_total };

    ghost matches_partial_cmp = { Prim.search (comparing, rules) };

    ghost matches_eq = { Prim.search (comparing, rules) };

    fn cmp(&self, other: &FactName) -> Ordering {
        match self.name.as_str().cmp(other.name.as_str()) {
            Ordering::Equal => self.theory.as_str().cmp(other.theory.as_str()),
            unequal => unequal,
        }
    }
}

impl PartialOrd for FactName {
    ghost use Rattle.std.specs.Cmp.{partial_order_from_total};
    ghost use Rattle.std.specs.Ordering.{as_partial_cmp};
    ghost use Rattle.theory_ctx.specs.Order.{by_name, by_name_total};

    ghost partial_cmp = { as_partial_cmp by_name };

    ghost laws = { partial_order_from_total by_name_total };

    fn partial_cmp(&self, other: &FactName) -> Option<Ordering> {
        Some(self.cmp(other))
    }
}
