ghost use Rattle.std.specs.Prelude.{◌≡◌, ◌+◌, map, IsTrue, IfOk};
ghost use Rattle.nj_formula.specs.declared.formula.Formula.TheVariants.{Atom};
ghost use Rattle.nj_formula.specs.Closed.{is_closed};
ghost use Rattle.nj_formula.specs.Instance.{filled_argument};
ghost use Rattle.nj_formula.specs.FormulaInstance.{filled_formula, formula_instance};

use crate::argument::Argument;
use crate::formula::Formula;
use crate::name::Name;
use crate::obj_term::ObjTerm;
use crate::shared::Shared;
use joined_results::both;
use sqlite_items::Items;
use std::alloc::{AllocError, Global};

#[cycle(filled)]
fn filled_argument(
    alloc: Global,
    argument: &Argument,
    place: usize,
    term: &Argument,
) -> Result<Argument, AllocError>
    ensures { IfOk result (λ a. a ≡ filled_argument place term.now argument.now) }
{
    match argument {
        Argument::Free(name) => Ok(Argument::Free(name.copy(alloc)?)),
        Argument::Bound(other) => {
            if *other == place {
                term.copy(alloc)
            } else {
                Ok(Argument::Bound(*other))
            }
        }
        Argument::Apply(function, arguments) => Argument::apply(
            alloc,
            function.copy(alloc)?,
            filled_arguments(alloc, arguments.get().as_slice(), place, term)?,
        ),
    }
}

#[cycle(filled)]
fn filled_arguments(
    alloc: Global,
    arguments: &[Argument],
    place: usize,
    term: &Argument,
) -> Result<Items<Argument>, AllocError>
    ensures { IfOk result (λ filled. filled ≡ map (filled_argument place term.now) arguments.now) }
{
    let mut filled = Items::new(alloc);
    for argument in arguments {
        filled.push(filled_argument(alloc, argument, place, term)?)?;
    }
    Ok(filled)
}

fn filled_atom(
    alloc: Global,
    predicate: &Name,
    arguments: &Items<Argument>,
    place: usize,
    term: &Argument,
) -> Result<Formula, AllocError>
    ensures { IfOk result (λ f.
        f ≡ Atom predicate.now (map (filled_argument place term.now) arguments.now)) }
{
    let filled = filled_arguments(alloc, arguments.as_slice(), place, term);
    let (predicate, arguments) = both(predicate.copy(alloc), filled)?;
    Formula::atom(alloc, predicate, arguments)
}

impl Formula {
    /// The instance of a quantifier's body at a term: the term stands in the place that the
    /// quantifier binds, and all else is as it was, names beside quantifiers too. No name is
    /// captured, since bound places are numbers.
    pub fn instance(&self, alloc: Global, term: &ObjTerm) -> Result<Formula, AllocError>
        ensures value { IfOk result (λ f. f ≡ formula_instance term.now self.now) }
        ensures closed { IsTrue (is_closed term.now) }
    {
        self.filled(alloc, 0, term.argument())
    }

    #[cycle(filled_formula)]
    fn filled(&self, alloc: Global, place: usize, term: &Argument) -> Result<Formula, AllocError>
        ensures { IfOk result (λ f. f ≡ filled_formula term.now self.now place) }
    {
        match self {
            Formula::False => Ok(Formula::False),
            Formula::Atom(predicate, arguments) => {
                filled_atom(alloc, predicate, arguments.get(), place, term)
            }
            Formula::Not(a) => Ok(Formula::Not(filled_part(alloc, a.get(), place, term)?)),
            Formula::And(a, b) => {
                let a = filled_part(alloc, a.get(), place, term);
                let (a, b) = both(a, filled_part(alloc, b.get(), place, term))?;
                Ok(Formula::And(a, b))
            }
            Formula::Or(a, b) => {
                let a = filled_part(alloc, a.get(), place, term);
                let (a, b) = both(a, filled_part(alloc, b.get(), place, term))?;
                Ok(Formula::Or(a, b))
            }
            Formula::Implies(a, b) => {
                let a = filled_part(alloc, a.get(), place, term);
                let (a, b) = both(a, filled_part(alloc, b.get(), place, term))?;
                Ok(Formula::Implies(a, b))
            }
            Formula::All(name, body) => {
                let (name, body) = filled_under(alloc, name, body.get(), place, term)?;
                Ok(Formula::All(name, body))
            }
            Formula::Exists(name, body) => {
                let (name, body) = filled_under(alloc, name, body.get(), place, term)?;
                Ok(Formula::Exists(name, body))
            }
        }
    }
}

#[cycle(filled_formula)]
fn filled_part(
    alloc: Global,
    part: &Formula,
    place: usize,
    term: &Argument,
) -> Result<Shared<Formula>, AllocError>
    ensures { IfOk result (λ f. f ≡ filled_formula term.now part.now place) }
{
    Shared::new(alloc, part.filled(alloc, place, term)?)
}

/// The name beside a quantifier, and its body.
#[cycle(filled_formula)]
fn filled_under(
    alloc: Global,
    name: &Name,
    body: &Formula,
    place: usize,
    term: &Argument,
) -> Result<(Name, Shared<Formula>), AllocError>
    ensures name { IfOk result (λ parts. parts.0 ≡ name.now) }
    ensures body { IfOk result (λ parts. parts.1 ≡ filled_formula term.now body.now (place + 1)) }
{
    both(name.copy(alloc), filled_body(alloc, body, place, term))
}

/// Under one more quantifier the place has the next number. No memory holds 2^64 quantifiers.
#[cycle(filled_formula)]
fn filled_body(
    alloc: Global,
    body: &Formula,
    place: usize,
    term: &Argument,
) -> Result<Shared<Formula>, AllocError>
    ensures { IfOk result (λ f. f ≡ filled_formula term.now body.now (place + 1)) }
{
    match place.checked_add(1) {
        Some(deeper) => Shared::new(alloc, body.filled(alloc, deeper, term)?),
        None => Err(AllocError),
    }
}
