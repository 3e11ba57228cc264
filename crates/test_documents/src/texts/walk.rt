//! A walk of random edits, beside texts that are lexed as a whole.
use crate::shared::names_of;
use crate::texts::cut_text::{CutText, Found, cut};
use crate::texts::whole::is_as_whole;
use joined_results::both;
use script_lines::{Answer, Call, Fault, below, next_of};
use sqlite_items::Items;
use std::alloc::{AllocError, Global};
use std::mem;
use text_edits::{Edit, Text};

/// Answers how many edits of the text, of as many as that, are as they are in whole texts.
pub(crate) fn answer(alloc: Global, out: &mut String, call: &Call<'_>) -> Answer {
    let edits = call.place(0)?;
    let mut text = cut(alloc, call.word(1)?, "-")?;
    let count = walked(alloc, &mut text, edits);
    drop(text);
    let count = count?;
    Ok(write!(out, "{count}")?)
}

/// Pieces that texts are made of.
const PIECES: [&str; 24] = [
    " ",
    "\n",
    "(*",
    "*)",
    "\"",
    "\\\"",
    "\\<open>",
    "\\<close>",
    "\\<alpha>",
    "\\",
    "<",
    ">",
    "a",
    "A.b",
    ".",
    "claim",
    "lemma",
    "theory",
    "begin",
    "imports",
    "keywords",
    "=",
    "x",
    "end ",
];

/// Inserts a piece or removes some scalars, by the seed.
fn some_edit(alloc: Global, text: &[char], seed: u64) -> Result<Edit, AllocError> {
    let len = text.len();
    let start = below(next_of(seed), len.saturating_add(1)).min(len);
    if seed >> 40 & 1 == 0 && len < 90 {
        let piece = PIECES[below(next_of(next_of(seed)), 24).min(23)];
        return Ok(Edit::Insert {
            start,
            text: Text::from_str(alloc, piece)?,
        });
    }
    let count = below(next_of(next_of(seed)), 6).min(len - start);
    Ok(Edit::Remove {
        start,
        text: Text::from_slice(alloc, &text[start..start + count])?,
    })
}

/// The aliases of the new text, by the seed.
fn some_aliases(alloc: Global, seed: u64) -> Result<Vec<Items<char>>, AllocError> {
    match seed >> 50 & 7 {
        0 => names_of(alloc, "-"),
        1 => names_of(alloc, "claim,begin"),
        _ => names_of(alloc, "claim"),
    }
}

/// Makes an edit of the text. False where it then isn't as the whole text.
fn edited(alloc: Global, text: &mut CutText, seed: u64) -> Result<bool, Fault> {
    let (edit, aliases) = both(
        some_edit(alloc, text.text().as_slice(), seed),
        some_aliases(alloc, seed),
    )?;
    let made = made(alloc, text, &edit, &aliases);
    drop((edit, aliases));
    made
}

/// The same, of the edit.
fn made(
    alloc: Global,
    text: &mut CutText,
    edit: &Edit,
    aliases: &[Items<char>],
) -> Result<bool, Fault> {
    match text.edited(alloc, edit, aliases) {
        Ok(found) => taken(alloc, text, edit, aliases, found),
        Err(_) => Ok(false),
    }
}

/// Whether what was found is as the whole text. It is then the text.
fn taken(
    alloc: Global,
    text: &mut CutText,
    edit: &Edit,
    aliases: &[Items<char>],
    found: Found,
) -> Result<bool, Fault> {
    let whole = is_as_whole(alloc, text, edit, aliases, &found);
    drop(mem::replace(text, found.cut));
    whole
}

/// How many edits are as they are in whole texts, one after the other, of as many as that.
fn walked(alloc: Global, text: &mut CutText, edits: usize) -> Result<usize, Fault> {
    let mut seed = 20260722;
    for step in 0..edits {
        seed = next_of(seed);
        if !edited(alloc, text, seed)? {
            return Ok(step);
        }
    }
    Ok(edits)
}
