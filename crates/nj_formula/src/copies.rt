//! Copies take constant time: the parts are shared.

ghost use Rattle.std.specs.Prelude.{◌≡◌, IfOk};
ghost use Rattle.nj_formula.specs.declared.formula.Formula.TheVariants.{Atom};

use crate::argument::Argument;
use crate::formula::Formula;
use crate::name::Name;
use crate::shared::Shared;
use joined_results::both;
use sqlite_items::Items;
use std::alloc::{AllocError, Global};

impl Argument {
    /// The same argument.
    pub fn copy(&self, alloc: Global) -> Result<Argument, AllocError>
        ensures { IfOk result (λ a. a ≡ self.now) }
    {
        match self {
            Argument::Free(name) => Ok(Argument::Free(name.copy(alloc)?)),
            Argument::Bound(place) => Ok(Argument::Bound(*place)),
            Argument::Apply(function, arguments) => {
                let (function, arguments) = both(function.copy(alloc), arguments.copy())?;
                Ok(Argument::Apply(function, arguments))
            }
        }
    }
}

impl Formula {
    /// The same formula, with the same names beside its quantifiers.
    pub fn copy(&self, alloc: Global) -> Result<Formula, AllocError>
        ensures { IfOk result (λ f. f ≡ self.now) }
    {
        match self {
            Formula::False => Ok(Formula::False),
            Formula::Atom(predicate, arguments) => copy_atom(alloc, predicate, arguments),
            Formula::Not(a) => Ok(Formula::Not(a.copy()?)),
            Formula::And(a, b) => {
                let (a, b) = copy_both(a, b)?;
                Ok(Formula::And(a, b))
            }
            Formula::Or(a, b) => {
                let (a, b) = copy_both(a, b)?;
                Ok(Formula::Or(a, b))
            }
            Formula::Implies(a, b) => {
                let (a, b) = copy_both(a, b)?;
                Ok(Formula::Implies(a, b))
            }
            Formula::All(name, body) => {
                let (name, body) = copy_under(alloc, name, body)?;
                Ok(Formula::All(name, body))
            }
            Formula::Exists(name, body) => {
                let (name, body) = copy_under(alloc, name, body)?;
                Ok(Formula::Exists(name, body))
            }
        }
    }
}

fn copy_atom(
    alloc: Global,
    predicate: &Name,
    arguments: &Shared<Items<Argument>>,
) -> Result<Formula, AllocError>
    ensures { IfOk result (λ f. f ≡ Atom predicate.now arguments.now) }
{
    let (predicate, arguments) = both(predicate.copy(alloc), arguments.copy())?;
    Ok(Formula::Atom(predicate, arguments))
}

fn copy_both(
    a: &Shared<Formula>,
    b: &Shared<Formula>,
) -> Result<(Shared<Formula>, Shared<Formula>), AllocError>
    ensures { IfOk result (λ copies. copies ≡ (a.now, b.now)) }
{
    both(a.copy(), b.copy())
}

/// The name beside a quantifier, and its body.
fn copy_under(
    alloc: Global,
    name: &Name,
    body: &Shared<Formula>,
) -> Result<(Name, Shared<Formula>), AllocError>
    ensures { IfOk result (λ copies. copies ≡ (name.now, body.now)) }
{
    both(name.copy(alloc), body.copy())
}
