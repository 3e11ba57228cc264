//! Formulas and terms that are made of their parts (`nj_formula`).
use crate::logic::formulas::printed;
use joined_results::both;
use nj_formula::{Argument, Formula, Name, ObjTerm};
use script_lines::{Answer, Call, Fault, say_whether};
use sqlite_items::Items;
use std::alloc::{AllocError, Global};

/// Answers what is made of `A` and `B`, or of `P` of the place 0; and whether `f` of a free name, or
/// of the place 0, is a term.
pub(crate) fn answer(alloc: Global, out: &mut String, call: &Call<'_>) -> Answer {
    match call.verb {
        "term-of-name" => term_of(alloc, out, free(alloc)),
        "term-of-place" => term_of(alloc, out, Ok(Argument::Bound(0))),
        "all" => printed(alloc, out, all(alloc)),
        "exists" => printed(alloc, out, exists(alloc)),
        "not" => printed(alloc, out, Formula::not(alloc, atom(alloc, "A")?)),
        verb => of_two(alloc, out, verb),
    }
}

/// Answers what an operator makes of `A` and `B`.
fn of_two(alloc: Global, out: &mut String, verb: &str) -> Answer {
    let (a, b) = both(atom(alloc, "A"), atom(alloc, "B"))?;
    match verb {
        "and" => printed(alloc, out, Formula::and(alloc, a, b)),
        "or" => printed(alloc, out, Formula::or(alloc, a, b)),
        "implies" => printed(alloc, out, Formula::implies(alloc, a, b)),
        _ => Err(Fault::Line),
    }
}

/// A propositional atom.
pub(crate) fn atom(alloc: Global, name: &str) -> Result<Formula, AllocError> {
    Formula::atom(alloc, Name::new(alloc, name)?, Items::new(alloc))
}

/// A list of one argument.
fn arguments(
    alloc: Global,
    argument: Result<Argument, AllocError>,
) -> Result<Items<Argument>, AllocError> {
    let mut arguments = Items::new(alloc);
    arguments.push(argument?)?;
    Ok(arguments)
}

/// `P` of the place 0.
fn body(alloc: Global) -> Result<Formula, AllocError> {
    let (name, arguments) = both(
        Name::new(alloc, "P"),
        arguments(alloc, Ok(Argument::Bound(0))),
    )?;
    Formula::atom(alloc, name, arguments)
}

fn all(alloc: Global) -> Result<Formula, AllocError> {
    let (name, body) = both(Name::new(alloc, "x"), body(alloc))?;
    Formula::all(alloc, name, body)
}

fn exists(alloc: Global) -> Result<Formula, AllocError> {
    let (name, body) = both(Name::new(alloc, "x"), body(alloc))?;
    Formula::exists(alloc, name, body)
}

/// The free name `c`.
fn free(alloc: Global) -> Result<Argument, AllocError> {
    Ok(Argument::Free(Name::new(alloc, "c")?))
}

/// Answers whether `f` of the argument is a term.
fn term_of(alloc: Global, out: &mut String, argument: Result<Argument, AllocError>) -> Answer {
    let (name, arguments) = both(Name::new(alloc, "f"), arguments(alloc, argument))?;
    let applied = Argument::apply(alloc, name, arguments)?;
    say_whether(out, ObjTerm::new(applied).is_some())
}
