//! Headers of texts (`outer_syntax`).
use crate::shared::{put_number, put_scalars, scalars_of};
use outer_syntax::{Header, header, header_stop};
use script_lines::{Answer, Call, Fault};
use std::alloc::{AllocError, Global};

/// Answers of a text: its header, or `none`, and where it ends.
pub(crate) fn answer(alloc: Global, out: &mut String, call: &Call<'_>) -> Answer {
    match call.verb {
        "of" => Ok(put_header_of(alloc, out, scalars_of(alloc, call.word(0)?))?),
        _ => Err(Fault::Line),
    }
}

/// Adds the header, and where it ends.
fn put_header_of(
    alloc: Global,
    out: &mut String,
    text: Result<Vec<char>, AllocError>,
) -> Result<(), AllocError> {
    let text = text?;
    put_header(out, header(alloc, &text))?;
    out.push_str("; ")?;
    put_number(out, header_stop(&text))
}

/// Adds a mark and the scalars.
fn put(out: &mut String, mark: &str, scalars: &[char]) -> Result<(), AllocError> {
    out.push_str(mark)?;
    put_scalars(out, scalars)
}

/// Adds the header, or `none`.
fn put_header(
    out: &mut String,
    found: Result<Option<Header>, AllocError>,
) -> Result<(), AllocError> {
    match found? {
        Some(found) => {
            let put = put_parts(out, &found);
            drop(found);
            put
        }
        None => out.push_str("none"),
    }
}

/// Adds the parts of the header.
fn put_parts(out: &mut String, found: &Header) -> Result<(), AllocError> {
    put_scalars(out, found.name.as_slice())?;
    for import in found.imports.as_slice() {
        put(out, " <", import.as_slice())?;
    }
    for pair in found.keywords.as_slice() {
        put(out, " ", pair.name.as_slice())?;
        put(out, "=", pair.target.as_slice())?;
    }
    Ok(())
}
