//! Spans of texts (`command_spans`).
use crate::shared::{names_of, scalars_of};
use crate::texts::told::put_spans;
use command_spans::spans;
use joined_results::both;
use script_lines::{Answer, Call, Fault};
use std::alloc::{AllocError, Global};

/// Answers of a text under the aliases that a word lists: each command by its range, with `_` before
/// what is ignored, and `?` before what is malformed.
pub(crate) fn answer(alloc: Global, out: &mut String, call: &Call<'_>) -> Answer {
    match call.verb {
        "under" => Ok(put_spans_of(alloc, out, call.word(0)?, call.word(1)?)?),
        _ => Err(Fault::Line),
    }
}

/// Adds the spans of the text under the aliases.
fn put_spans_of(
    alloc: Global,
    out: &mut String,
    names: &str,
    text: &str,
) -> Result<(), AllocError> {
    let (scalars, aliases) = both(scalars_of(alloc, text), names_of(alloc, names))?;
    put_spans(out, &spans(alloc, &scalars, &aliases)?)
}
