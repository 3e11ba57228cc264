ghost use Rattle.std.specs.Prelude.{◌≡◌, IfOk};
ghost use Rattle.nj_formula.specs.declared.argument.Argument.TheVariants.{Apply};

use crate::name::Name;
use crate::shared::Shared;
use sqlite_items::Items;
use std::alloc::{AllocError, Global};

/// What stands in a place of an atom or of a function.
#[derive(Debug)]
pub enum Argument {
    /// A free name: a constant, or a variable that no quantifier binds.
    Free(Name),
    /// The place that a quantifier binds: how many quantifiers stand between. Where there are not
    /// so many, nothing binds it, and it is a constant of its own, known by its number.
    Bound(usize),
    /// A function of its arguments.
    Apply(Name, Shared<Items<Argument>>),
}

/// By hand, so that an argument is let go by one call wherever it ends.
impl Drop for Argument {
    fn drop(self) {
        match self {
            Argument::Free(_name) => (),
            Argument::Bound(_) => (),
            Argument::Apply(_function, arguments) => drop(arguments),
        }
    }
}

impl Argument {
    /// The function of the arguments.
    pub fn apply(
        alloc: Global,
        function: Name,
        arguments: Items<Argument>,
    ) -> Result<Argument, AllocError>
        ensures { IfOk result (λ a. a ≡ Apply function arguments) }
    {
        Ok(Argument::Apply(function, Shared::new(alloc, arguments)?))
    }
}
