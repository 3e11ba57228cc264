//! The facts of a theory.
ghost use Rattle.std.specs.Prelude.{◌≡◌, IfOk};
ghost use Rattle.isar_rules.specs.Theories.{with_fact, has_fact};

use crate::texts::ascii;
use isar_rules::Theory;
use nj_formula::{Formula, Name};
use std::alloc::{AllocError, Global};

/// The scalars as a name. They have to be in ASCII.
pub(crate) fn name_of(alloc: Global, scalars: &[char]) -> Result<Name, AllocError>
    ensures { IfOk result (λ name. name ≡ scalars.now) }
{
    Name::from_string(ascii(alloc, scalars)?)
}

/// Whether the theory has a fact of this name.
pub(crate) fn has_fact(theory: &Theory, name: &str) -> bool
    ensures { result ≡ has_fact name.now theory.now }
{
    theory.facts.has(theory.name.as_str(), name)
}

/// The theory with one fact more, or with this fact in the place of that of its name. It shares its
/// facts.
pub fn with_fact(
    alloc: Global,
    theory: &Theory,
    name: &Name,
    formula: Formula,
) -> Result<Theory, AllocError>
    ensures { IfOk result (λ more. more ≡ with_fact name.now formula theory.now) }
{
    let mut more = theory.copy(alloc)?;
    match more.facts.set(alloc, &theory.name, name, formula) {
        Ok(()) => Ok(more),
        Err(fault) => {
            drop(more);
            Err(fault)
        }
    }
}
