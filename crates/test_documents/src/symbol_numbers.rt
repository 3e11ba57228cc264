//! Places and reports that count symbols (`symbol_markup`).
use crate::shared::scalars_of;
use crate::taken_snapshots::put_all_shown;
use report_markup::Report;
use script_lines::{Fault, place};
use std::alloc::{AllocError, Global};
use symbol_markup::{SymbolPlaces, reports_in_symbols};

/// The reports of a text, at ranges that count symbols.
pub(crate) fn put_in_symbols(
    alloc: Global,
    text: &str,
    reports: &[Report],
    out: &mut String,
) -> Result<(), AllocError> {
    let text = scalars_of(alloc, text)?;
    put_all_shown(alloc, &reports_in_symbols(alloc, &text, reports)?, out)
}

fn put_places(places: &SymbolPlaces<'_>, words: &[&str], out: &mut String) -> Result<(), Fault> {
    for word in words {
        write!(out, "{} ", places.place(place(*word)?))?;
    }
    Ok(())
}

/// The numbers of the symbols of a text at these places.
pub(crate) fn answer(alloc: Global, words: &[&str], out: &mut String) -> Result<(), Fault> {
    let [text, words @ ..] = words else {
        return Err(Fault::Line);
    };
    let text = scalars_of(alloc, text)?;
    put_places(&SymbolPlaces::of(alloc, &text)?, words, out)
}
