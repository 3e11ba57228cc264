ghost use Rattle.std.specs.Prelude.{◌≡◌, map, IfOk};
ghost use Rattle.std.specs.List.{list_any};
ghost use Rattle.nj_formula.specs.Meaning.{meaning};
ghost use Rattle.nj_syntax.specs.ArgumentText.{name_at};
ghost use Rattle.nj_syntax.specs.Primed.{is_shown_in, is_shown, IsPrimed};

use nj_formula::{Argument, Formula, Name};
use std::alloc::{AllocError, Global};
use std::collections::VecDeque;

/// The printed name of the place; a place that nothing binds has none.
pub fn name_at(names: &VecDeque<Name>, place: usize) -> &str
    ensures { result.now ≡ name_at names.now.items place }
{
    match names.get(place) {
        Some(name) => name.as_str(),
        None => "",
    }
}

/// Whether the name stands in the argument, which is under `depth` quantifiers more than the names.
#[cycle(shown)]
fn is_shown_in(argument: &Argument, name: &str, names: &VecDeque<Name>, depth: usize) -> bool
    ensures { result ≡ is_shown_in name.now names.now.items depth argument.now }
{
    match argument {
        Argument::Free(other) => other.is(name),
        Argument::Bound(place) => *place >= depth && name_at(names, *place - depth) == name,
        Argument::Apply(_, arguments) => any_shown(arguments.get().as_slice(), name, names, depth),
    }
}

#[cycle(shown)]
fn any_shown(arguments: &[Argument], name: &str, names: &VecDeque<Name>, depth: usize) -> bool
    ensures { result ≡ list_any (λ shown. shown)
        (map (is_shown_in name.now names.now.items depth) arguments.now) }
{
    for argument in arguments {
        if is_shown_in(argument, name, names, depth) {
            return true;
        }
    }
    false
}

/// Whether the name is free in what is printed under these names and `depth` quantifiers more. No
/// memory holds 2^64 quantifiers.
fn is_shown(
    formula: &Formula,
    name: &str,
    names: &VecDeque<Name>,
    depth: usize,
) -> Result<bool, AllocError>
    ensures { IfOk result (λ shown.
        shown ≡ is_shown name.now names.now.items depth (meaning formula.now)) }
{
    match formula {
        Formula::False => Ok(false),
        Formula::Atom(_, arguments) => Ok(any_shown(
            arguments.get().as_slice(),
            name,
            names,
            depth,
        )),
        Formula::Not(a) => is_shown(a.get(), name, names, depth),
        Formula::And(a, b) | Formula::Or(a, b) | Formula::Implies(a, b) => {
            if is_shown(a.get(), name, names, depth)? {
                return Ok(true);
            }
            is_shown(b.get(), name, names, depth)
        }
        Formula::All(_, body) | Formula::Exists(_, body) => match depth.checked_add(1) {
            Some(deeper) => is_shown(body.get(), name, names, deeper),
            None => Err(AllocError),
        },
    }
}

/// The name beside a quantifier as it is printed: with `'` added until it is not free in the body.
pub fn primed(
    alloc: Global,
    name: &Name,
    names: &VecDeque<Name>,
    body: &Formula,
) -> Result<Name, AllocError>
    ensures { IfOk result (λ y. IsPrimed names.now.items name.now (meaning body.now) y) }
{
    let mut text = String::from_str(alloc, name.as_str())?;
    'primes: while is_shown(body, text.as_str(), names, 1)? {
        text.push('\'')?;
    }
    Name::new(alloc, text.as_str())
}
