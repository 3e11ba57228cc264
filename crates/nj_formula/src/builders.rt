//! A formula from its parts.

ghost use Rattle.std.specs.Prelude.{◌≡◌, IfOk};
ghost use Rattle.nj_formula.specs.declared.formula.Formula.TheVariants.{Atom, Not, And, Or};
ghost use Rattle.nj_formula.specs.declared.formula.Formula.TheVariants.{Implies, All, Exists};

use crate::argument::Argument;
use crate::formula::Formula;
use crate::name::Name;
use crate::shared::Shared;
use joined_results::both;
use sqlite_items::Items;
use std::alloc::{AllocError, Global};

impl Formula {
    /// The predicate of the arguments.
    pub fn atom(
        alloc: Global,
        predicate: Name,
        arguments: Items<Argument>,
    ) -> Result<Formula, AllocError>
        ensures { IfOk result (λ f. f ≡ Atom predicate arguments) }
    {
        Ok(Formula::Atom(predicate, Shared::new(alloc, arguments)?))
    }

    /// `~a`
    pub fn not(alloc: Global, a: Formula) -> Result<Formula, AllocError>
        ensures { IfOk result (λ f. f ≡ Not a) }
    {
        Ok(Formula::Not(Shared::new(alloc, a)?))
    }

    /// `a & b`
    pub fn and(alloc: Global, a: Formula, b: Formula) -> Result<Formula, AllocError>
        ensures { IfOk result (λ f. f ≡ And a b) }
    {
        let (a, b) = both(Shared::new(alloc, a), Shared::new(alloc, b))?;
        Ok(Formula::And(a, b))
    }

    /// `a | b`
    pub fn or(alloc: Global, a: Formula, b: Formula) -> Result<Formula, AllocError>
        ensures { IfOk result (λ f. f ≡ Or a b) }
    {
        let (a, b) = both(Shared::new(alloc, a), Shared::new(alloc, b))?;
        Ok(Formula::Or(a, b))
    }

    /// `a --> b`
    pub fn implies(alloc: Global, a: Formula, b: Formula) -> Result<Formula, AllocError>
        ensures { IfOk result (λ f. f ≡ Implies a b) }
    {
        let (a, b) = both(Shared::new(alloc, a), Shared::new(alloc, b))?;
        Ok(Formula::Implies(a, b))
    }

    /// `ALL name. body`, which binds the place 0 of the body.
    pub fn all(alloc: Global, name: Name, body: Formula) -> Result<Formula, AllocError>
        ensures { IfOk result (λ f. f ≡ All name body) }
    {
        Ok(Formula::All(name, Shared::new(alloc, body)?))
    }

    /// `EX name. body`, which binds the place 0 of the body.
    pub fn exists(alloc: Global, name: Name, body: Formula) -> Result<Formula, AllocError>
        ensures { IfOk result (λ f. f ≡ Exists name body) }
    {
        Ok(Formula::Exists(name, Shared::new(alloc, body)?))
    }
}
