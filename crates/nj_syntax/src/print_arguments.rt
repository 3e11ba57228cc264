ghost use Rattle.std.specs.Prelude.{◌≡◌, ◌++◌, map, OnOk, string_bytes};
ghost use Rattle.nj_syntax.specs.ArgumentText.{argument_text, listed, after_commas};

use crate::names::name_at;
use nj_formula::{Argument, Name};
use std::alloc::AllocError;
use std::collections::VecDeque;

/// Adds the text of the argument under these names.
#[cycle(arguments)]
pub fn write_argument(
    text: &mut String,
    names: &VecDeque<Name>,
    argument: &Argument,
) -> Result<(), AllocError>
    ensures { OnOk result (string_bytes text.new
        ≡ string_bytes text.old ++ argument_text names.now.items argument.now) }
{
    match argument {
        Argument::Free(name) => text.push_str(name.as_str()),
        Argument::Bound(place) => text.push_str(name_at(names, *place)),
        Argument::Apply(function, arguments) => {
            text.push_str(function.as_str())?;
            text.push_str("(")?;
            write_arguments(text, names, arguments.get().as_slice())?;
            text.push_str(")")
        }
    }
}

/// Adds the texts of the arguments, with commas between them.
#[cycle(arguments)]
pub fn write_arguments(
    text: &mut String,
    names: &VecDeque<Name>,
    arguments: &[Argument],
) -> Result<(), AllocError>
    ensures { OnOk result (string_bytes text.new
        ≡ string_bytes text.old ++ listed (map (argument_text names.now.items) arguments.now)) }
{
    let [first, others @ ..] = arguments else {
        return Ok(())
    };
    write_argument(text, names, first)?;
    for argument in others {
        text.push_str(", ")?;
        write_argument(text, names, argument)?;
    }
    Ok(())
}
