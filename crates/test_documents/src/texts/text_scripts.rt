//! Texts under edits, made one after the other (`command_spans`).
use crate::shared::names_of;
use crate::texts::cut_text::{CutText, Found, cut};
use crate::texts::told::{edit_of, put_fault, put_spans};
use crate::texts::whole::put_counts;
use outer_syntax::{Kind, Token};
use script_lines::{Answer, Call, Fault, joined};
use sqlite_items::Items;
use std::alloc::{AllocError, Global};
use std::mem;
use text_edits::Edit;

/// Answers what a text `under` the aliases that a word lists is: the number of its scalars and of
/// its aliases, a mark for each token, and the spans. Any other call is an edit with the aliases
/// after it, and tells how many tokens are kept at the front and at the back, and the text then; or
/// a fault, and the text that stays.
pub(crate) fn answer(
    alloc: Global,
    out: &mut String,
    text: &mut CutText,
    call: &Call<'_>,
) -> Answer {
    match call.verb {
        "under" => begin(out, text, cut(alloc, call.word(1)?, call.word(0)?)),
        way => {
            let edit = edit_of(alloc, way, call.place(0)?, call.word(2)?);
            put_step(alloc, out, text, edit, call.word(1))
        }
    }
}

/// A new text is the text from then on.
fn begin(out: &mut String, text: &mut CutText, new: Result<CutText, AllocError>) -> Answer {
    drop(mem::replace(text, new?));
    Ok(put_text(out, text)?)
}

/// Adds what a text is told to be.
fn put_text(out: &mut String, text: &CutText) -> Result<(), AllocError> {
    let len = text.text().len();
    let aliases = text.spans().aliases().len();
    write!(out, "{len}, {aliases}, ")?;
    put_marks(out, text.spans().tokens())?;
    out.push_str(",")?;
    put_spans(out, text.spans().spans())
}

/// Adds the marks of the tokens.
fn put_marks(out: &mut String, tokens: &[Token]) -> Result<(), AllocError> {
    for token in tokens {
        out.push_str(token_mark(token.kind))?;
    }
    Ok(())
}

/// A mark for the kind of a token.
fn token_mark(kind: Kind) -> &'static str {
    match kind {
        Kind::Space => "_",
        Kind::Comment => "*",
        Kind::String => "\"",
        Kind::Cartouche => "<",
        Kind::Symbol => "\\",
        Kind::LongIdent => ".",
        Kind::Command => "c",
        Kind::Keyword => "k",
        Kind::Ident => "i",
        Kind::Sym => "=",
        Kind::Error => "!",
    }
}

/// Answers of the edit and of the text after it.
fn put_step(
    alloc: Global,
    out: &mut String,
    text: &mut CutText,
    edit: Result<Edit, Fault>,
    names: Result<&str, Fault>,
) -> Answer {
    let (edit, aliases) = joined(edit, aliases_of(alloc, names))?;
    let put = put_made(alloc, out, text, &edit, &aliases);
    drop((edit, aliases));
    put?;
    out.push_str(": ")?;
    Ok(put_text(out, text)?)
}

/// The aliases that a word lists.
fn aliases_of(alloc: Global, names: Result<&str, Fault>) -> Result<Vec<Items<char>>, Fault> {
    Ok(names_of(alloc, names?)?)
}

/// Answers of the edit, which is made of the text.
fn put_made(
    alloc: Global,
    out: &mut String,
    text: &mut CutText,
    edit: &Edit,
    aliases: &[Items<char>],
) -> Answer {
    match text.edited(alloc, edit, aliases) {
        Ok(found) => put_taken(alloc, out, text, edit, aliases, found),
        Err(fault) => Ok(put_fault(out, fault)?),
    }
}

/// Answers of what was found, which is then the text.
fn put_taken(
    alloc: Global,
    out: &mut String,
    text: &mut CutText,
    edit: &Edit,
    aliases: &[Items<char>],
    found: Found,
) -> Answer {
    let answer = put_counts(alloc, out, text, edit, aliases, &found);
    drop(mem::replace(text, found.cut));
    answer
}
