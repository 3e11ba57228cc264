//! Keys of formulas, by which assumptions are kept in order.

ghost use Rattle.std.specs.Prelude.{◌≡◌, ◌∷◌, ◌++◌, map, OnOk, IfOk};
ghost use Rattle.nj_formula.specs.Meaning.{meaning};
ghost use Rattle.nj_kernel.specs.Keys.{counted_name, counted_keys, argument_key, statement_key};

use nj_formula::{Argument, Formula, Name};
use sqlite_items::Items;
use std::alloc::{AllocError, Global};

/// The key of what the formula says.
pub(crate) fn key_of(alloc: Global, formula: &Formula) -> Result<Items<usize>, AllocError>
    ensures { IfOk result (λ k. k ≡ statement_key (meaning formula.now)) }
{
    let mut key = Items::new(alloc);
    put_formula(&mut key, formula)?;
    Ok(key)
}

fn put_name(to: &mut Items<usize>, name: &Name) -> Result<(), AllocError>
    ensures { OnOk result (to.new ≡ to.old ++ counted_name name.now) }
{
    let text = name.as_str().as_bytes();
    to.push(text.len())?;
    for byte in text {
        to.push(*byte as usize)?;
    }
    Ok(())
}

#[cycle(argument_keys)]
fn put_argument(to: &mut Items<usize>, argument: &Argument) -> Result<(), AllocError>
    ensures { OnOk result (to.new ≡ to.old ++ argument_key argument.now) }
{
    match argument {
        Argument::Free(name) => {
            to.push(0)?;
            put_name(to, name)
        }
        Argument::Bound(place) => {
            to.push(1)?;
            to.push(*place)
        }
        Argument::Apply(function, arguments) => {
            to.push(2)?;
            put_name(to, function)?;
            put_arguments(to, arguments.get().as_slice())
        }
    }
}

#[cycle(argument_keys)]
fn put_arguments(to: &mut Items<usize>, arguments: &[Argument]) -> Result<(), AllocError>
    ensures { OnOk result (to.new ≡ to.old ++ counted_keys (map argument_key arguments.now)) }
{
    to.push(arguments.len())?;
    for argument in arguments {
        put_argument(to, argument)?;
    }
    Ok(())
}

#[cycle(formula_keys)]
fn put_formula(to: &mut Items<usize>, formula: &Formula) -> Result<(), AllocError>
    ensures { OnOk result (to.new ≡ to.old ++ statement_key (meaning formula.now)) }
{
    match formula {
        Formula::False => to.push(0),
        Formula::Atom(predicate, arguments) => {
            to.push(1)?;
            put_name(to, predicate)?;
            put_arguments(to, arguments.get().as_slice())
        }
        Formula::Not(a) => put_part(to, 2, a.get()),
        Formula::And(a, b) => {
            put_part(to, 3, a.get())?;
            put_formula(to, b.get())
        }
        Formula::Or(a, b) => {
            put_part(to, 4, a.get())?;
            put_formula(to, b.get())
        }
        Formula::Implies(a, b) => {
            put_part(to, 5, a.get())?;
            put_formula(to, b.get())
        }
        Formula::All(_, body) => put_part(to, 6, body.get()),
        Formula::Exists(_, body) => put_part(to, 7, body.get()),
    }
}

#[cycle(formula_keys)]
fn put_part(to: &mut Items<usize>, form: usize, part: &Formula) -> Result<(), AllocError>
    ensures { OnOk result (to.new ≡ to.old ++ form ∷ statement_key (meaning part.now)) }
{
    to.push(form)?;
    put_formula(to, part)
}
