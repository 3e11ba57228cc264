//! The limits of a document (`pide_base`): whether a number is past them.
use pide_base::{are_too_many, are_too_many_live, is_too_long};
use script_lines::{Fault, place};

pub(crate) fn answer(words: &[&str], out: &mut String) -> Result<(), Fault> {
    let [what, number] = words else {
        return Err(Fault::Line);
    };
    let number = place(*number)?;
    let is_past = match *what {
        "nodes" => are_too_many(number),
        "scalars" => is_too_long(number),
        "versions" => are_too_many_live(number),
        _ => return Err(Fault::Line),
    };
    Ok(write!(out, "{is_past}")?)
}
