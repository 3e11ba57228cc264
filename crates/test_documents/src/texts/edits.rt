//! Edits of texts (`text_edits`), and copies of texts.
use crate::shared::{put_agreed, put_quoted, put_scalars};
use crate::texts::told::{edit_of, put_fault};
use joined_results::both;
use script_lines::{Answer, Call};
use std::alloc::{AllocError, Global};
use text_edits::{Edit, EditFault, Text, apply, changed};

/// Answers of an edit, `insert` or `remove` with its place, a text and the text there: the text that it
/// makes behind a colon, or the fault and the text that stays; or of a `copy` of a text, or of a
/// `copy-of-new` one.
pub(crate) fn answer(alloc: Global, out: &mut String, call: &Call<'_>) -> Answer {
    match call.verb {
        "copy" => Ok(put_copied(alloc, out, Text::from_str(alloc, call.word(0)?))?),
        "copy-of-new" => Ok(put_copied(alloc, out, Ok(Text::new(alloc)))?),
        way => edited(alloc, out, way, call),
    }
}

/// Answers of an edit.
fn edited(alloc: Global, out: &mut String, way: &str, call: &Call<'_>) -> Answer {
    let before = call.word(1)?;
    let edit = edit_of(alloc, way, call.place(0)?, call.word(2)?)?;
    let put = put_both(alloc, out, before, &edit);
    drop(edit);
    Ok(put?)
}

/// Adds the fault, if there is one, and the text behind a colon.
fn put_text(
    out: &mut String,
    answer: Result<(), EditFault>,
    text: &Text,
) -> Result<(), AllocError> {
    if let Err(fault) = answer {
        put_fault(out, fault)?;
    }
    out.push_str(": ")?;
    put_scalars(out, text.as_slice())
}

/// What the edit makes of the text.
fn applied(alloc: Global, before: &str, edit: &Edit) -> Result<String, AllocError> {
    let mut text = Text::from_str(alloc, before)?;
    let answer = apply(&mut text, edit);
    told(alloc, answer, &text)
}

/// The text after an edit behind a colon, or the fault and the text.
fn told(alloc: Global, answer: Result<(), EditFault>, text: &Text) -> Result<String, AllocError> {
    let mut out = String::new(alloc);
    put_text(&mut out, answer, text)?;
    Ok(out)
}

/// What the edit makes beside the text.
fn made_beside(alloc: Global, before: &str, edit: &Edit) -> Result<String, AllocError> {
    let text = Text::from_str(alloc, before)?;
    match changed(alloc, &text, edit) {
        Ok(made) => told(alloc, Ok(()), &made),
        Err(fault) => told(alloc, Err(fault), &text),
    }
}

/// Adds what the edit makes in the text and beside it.
fn put_made(alloc: Global, out: &mut String, before: &str, edit: &Edit) -> Result<(), AllocError> {
    let (one, other) = both(
        applied(alloc, before, edit),
        made_beside(alloc, before, edit),
    )?;
    put_agreed(out, one.as_str(), other.as_str())
}

/// What the edit makes in the text and beside it.
fn made(alloc: Global, before: &str, edit: &Edit) -> Result<String, AllocError> {
    let mut out = String::new(alloc);
    put_made(alloc, &mut out, before, edit)?;
    Ok(out)
}

/// What a copy of the edit makes.
fn copy_made(alloc: Global, before: &str, edit: &Edit) -> Result<String, AllocError> {
    let copy = edit.copy(alloc)?;
    let made = made(alloc, before, &copy);
    drop(copy);
    made
}

/// Adds what the edit and a copy of it make.
fn put_both(alloc: Global, out: &mut String, before: &str, edit: &Edit) -> Result<(), AllocError> {
    let (one, other) = both(made(alloc, before, edit), copy_made(alloc, before, edit))?;
    put_agreed(out, one.as_str(), other.as_str())
}

/// Adds how many scalars a copy of the text has, whether it is empty, and the scalars.
fn put_copied(
    alloc: Global,
    out: &mut String,
    text: Result<Text, AllocError>,
) -> Result<(), AllocError> {
    let text = text?;
    let copy = text.copy(alloc);
    drop(text);
    put_text_of(out, copy)
}

fn put_text_of(out: &mut String, copy: Result<Text, AllocError>) -> Result<(), AllocError> {
    let copy = copy?;
    let len = copy.len();
    let empty = copy.is_empty();
    write!(out, "{len} {empty} ")?;
    put_quoted(out, copy.as_slice())
}
