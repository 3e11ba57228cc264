ghost use Rattle.std.specs.Prelude.{◌≡◌, ◌↔◌, IsTrue, IsSome, IfOk, IfSome, map};
ghost use Rattle.std.specs.List.{list_all};
ghost use Rattle.nj_formula.specs.declared.argument.Argument.TheVariants.{Free};
ghost use Rattle.nj_formula.specs.Closed.{is_closed};

use crate::argument::Argument;
use crate::name::Name;
use std::alloc::{AllocError, Global};
use std::marker::Model;

/// A term: an argument with no bound place. Contracts see it as the argument.
#[derive(Debug, Drop)]
pub struct ObjTerm {
    argument: Argument,
}

impl Model for ObjTerm {
    ghost use Rattle.std.specs.Prelude.{IsTrue};
    ghost use Rattle.nj_formula.specs.declared.argument.Argument.{Argument as Held};
    ghost use Rattle.nj_formula.specs.contracts.argument.Argument as held;
    ghost use Rattle.std.specs.Coded.{codes};
    ghost use Rattle.nj_formula.specs.Closed.{is_closed};

    ghost Value = { Held };

    ghost coded = { Prim.hlevel (codes, held.the_row.coded) };

    ghost view = { λ t. t.argument };

    ghost invariant = { λ t. IsTrue (is_closed t.argument) };
}

impl ObjTerm {
    /// The argument as a term, or None where a place in it is bound.
    pub fn new(argument: Argument) -> Option<ObjTerm>
        ensures closed { IsSome result ↔ IsTrue (is_closed argument) }
        ensures value { IfSome result (λ t. t ≡ argument) }
    {
        if argument.is_closed() {
            Some(ObjTerm { argument })
        } else {
            None
        }
    }

    /// A name by itself.
    pub fn name(alloc: Global, name: &str) -> Result<ObjTerm, AllocError>
        ensures { IfOk result (λ t. t ≡ Free name.now) }
    {
        let argument = Argument::Free(Name::new(alloc, name)?);
        Ok(ObjTerm { argument })
    }

    /// The argument that the term is, in which no place is bound from outside.
    pub fn argument(&self) -> &Argument
        ensures value { result.now ≡ self.now }
        ensures closed { IsTrue (is_closed self.now) }
    {
        &self.argument
    }

    /// The same term, in constant time.
    pub fn copy(&self, alloc: Global) -> Result<ObjTerm, AllocError>
        ensures { IfOk result (λ t. t ≡ self.now) }
    {
        let argument = self.argument.copy(alloc)?;
        Ok(ObjTerm { argument })
    }
}

impl Argument {
    /// Whether no place in it is bound.
    #[cycle(closed)]
    pub fn is_closed(&self) -> bool
        ensures { result ≡ is_closed self.now }
    {
        match self {
            Argument::Free(_) => true,
            Argument::Bound(_) => false,
            Argument::Apply(_, arguments) => all_closed(arguments.get().as_slice()),
        }
    }
}

#[cycle(closed)]
fn all_closed(arguments: &[Argument]) -> bool
    ensures { result ≡ list_all (λ closed. closed) (map is_closed arguments.now) }
{
    for argument in arguments {
        if !argument.is_closed() {
            return false;
        }
    }
    true
}
