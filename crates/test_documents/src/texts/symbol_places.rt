//! Symbols of texts, and places that count them (`outer_syntax`).
use crate::shared::{put_number, scalars_of};
use outer_syntax::{Boundaries, named_symbol, symbols};
use script_lines::{Answer, Call, Fault};
use std::alloc::{AllocError, Global};

/// Answers of the symbols of a text: `cut` tells their ranges, `to-symbol` how many are before a
/// place, `to-scalar` the place before one, `numbers` those of the places 0, 0, 1, 3, 7, 8 and 9,
/// `named` the length of a named one at the front.
pub(crate) fn answer(alloc: Global, out: &mut String, call: &Call<'_>) -> Answer {
    let text = scalars_of(alloc, call.word(0)?)?;
    match call.verb {
        "cut" => Ok(put_ranges(out, symbols(alloc, &text))?),
        "named" => Ok(put_number(out, named_symbol(&text))?),
        _ => of_boundaries(alloc, out, Boundaries::of(alloc, &text), call),
    }
}

/// Answers of the places between them.
fn of_boundaries(
    alloc: Global,
    out: &mut String,
    found: Result<Boundaries, AllocError>,
    call: &Call<'_>,
) -> Answer {
    let found = found?;
    match call.verb {
        "to-symbol" => Ok(put_symbol(out, &found, call.place(1)?)?),
        "to-scalar" => Ok(put_number(out, found.to_scalar(call.place(1)?))?),
        "numbers" => Ok(put_numbers(out, found.numbers(alloc, &[0, 0, 1, 3, 7, 8, 9]))?),
        _ => Err(Fault::Line),
    }
}

/// Adds the ranges of the symbols, each behind a blank.
fn put_ranges(
    out: &mut String,
    ranges: Result<Vec<(usize, usize)>, AllocError>,
) -> Result<(), AllocError> {
    for (start, stop) in &ranges? {
        write!(out, " {start}-{stop}")?;
    }
    Ok(())
}

/// Adds how many symbols are before the place, or in which one it is.
fn put_symbol(out: &mut String, found: &Boundaries, offset: usize) -> Result<(), AllocError> {
    if !found.reaches(offset) {
        return out.push_str("behind the end");
    }
    match found.to_symbol(offset) {
        Ok(symbol) => write!(out, "{symbol}"),
        Err(inside) => {
            let symbol = inside.symbol;
            write!(out, "in {symbol}")
        }
    }
}

/// Adds the numbers of places.
fn put_numbers(
    out: &mut String,
    numbers: Result<Vec<usize>, AllocError>,
) -> Result<(), AllocError> {
    let numbers = numbers?;
    write!(out, "{numbers:?}")
}
