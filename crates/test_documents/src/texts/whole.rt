//! What `reparse` must come to: the tokens and spans of the whole text, and how many tokens an edit
//! leaves alone.
use crate::texts::cut_text::{CutText, Found};
use command_spans::{Span, spans};
use outer_syntax::{Kind, Token};
use script_lines::{Answer, Fault, say};
use sqlite_items::Items;
use std::alloc::{AllocError, Global};
use text_edits::{Edit, Text, apply};

/// Where an edit begins, where it ends in the old text, and in the new one.
fn ends(edit: &Edit) -> (usize, usize, usize) {
    match edit {
        Edit::Insert { start, text } => (*start, *start, start.saturating_add(text.len())),
        Edit::Remove { start, text } => (*start, start.saturating_add(text.len()), *start),
    }
}

/// How many tokens are before the restart.
fn front_of(start: usize, tokens: &[Token]) -> usize {
    let mut restart = 0;
    for t in tokens {
        if t.kind == Kind::Space && t.range.start < start {
            restart = t.range.start;
        }
    }
    tokens.iter().filter(|t| t.range.start < restart).count()
}

/// Whether tokens of a text of so many scalars have a boundary at the place.
fn has_boundary(tokens: &[Token], len: usize, place: usize) -> bool {
    place == len || tokens.iter().any(|t| t.range.start == place)
}

/// How many tokens are after the meeting.
fn back_of(edit: &Edit, old: &CutText, new: &CutText) -> usize {
    let (_, old_end, new_end) = ends(edit);
    let len = old.text().len();
    for (i, t) in new.spans().tokens().iter().enumerate() {
        let place = t.range.start;
        if new_end <= place {
            let was = (place - new_end).saturating_add(old_end);
            if has_boundary(old.spans().tokens(), len, was) {
                return new.spans().tokens().len().saturating_sub(i);
            }
        }
    }
    0
}

/// Whether both have the same text, tokens and spans, and the spans are these.
fn same_spans(one: &CutText, whole: &CutText, spans: &[Span]) -> bool {
    one.text().as_slice() == whole.text().as_slice()
        && one.spans().tokens() == whole.spans().tokens()
        && one.spans().spans() == whole.spans().spans()
        && one.spans().spans() == spans
}

/// Whether both have the same text, tokens and spans, and the spans are those that `spans` finds.
fn same(
    alloc: Global,
    one: &CutText,
    whole: &CutText,
    aliases: &[Items<char>],
) -> Result<bool, Fault> {
    let cut = spans(alloc, whole.text().as_slice(), aliases)?;
    Ok(same_spans(one, whole, &cut))
}

/// Whether both numbers are those of the edit.
fn counts(old: &CutText, edit: &Edit, whole: &CutText, found: &Found) -> bool {
    let (start, _, _) = ends(edit);
    found.front == front_of(start, old.spans().tokens()) && found.back == back_of(edit, old, whole)
}

/// The same text in memory of its own.
fn twin(alloc: Global, old: &CutText) -> Result<CutText, AllocError> {
    let text = old.text().copy(alloc)?;
    CutText::of(alloc, text, old.spans().aliases())
}

/// The text after the edit.
fn edited_text(alloc: Global, old: &CutText, edit: &Edit) -> Result<Text, Fault> {
    let mut text = old.text().copy(alloc)?;
    match apply(&mut text, edit) {
        Ok(()) => Ok(text),
        Err(_) => Err(Fault::Line),
    }
}

/// The whole text after the edit.
fn whole_of(
    alloc: Global,
    old: &CutText,
    edit: &Edit,
    aliases: &[Items<char>],
) -> Result<CutText, Fault> {
    let text = edited_text(alloc, old, edit)?;
    Ok(CutText::of(alloc, text, aliases)?)
}

/// What is found where the memory of the old text is used.
fn found_in_place(
    alloc: Global,
    old: &CutText,
    edit: &Edit,
    aliases: &[Items<char>],
) -> Result<Found, Fault> {
    match twin(alloc, old)?.edited_in_place(alloc, edit, aliases) {
        Ok(found) => Ok(found),
        Err(_) => Err(Fault::Line),
    }
}

/// Whether what was found is as the whole text, with the numbers of the edit.
fn is_whole(
    alloc: Global,
    old: &CutText,
    edit: &Edit,
    aliases: &[Items<char>],
    whole: &CutText,
    found: &Found,
) -> Result<bool, Fault> {
    Ok(same(alloc, &found.cut, whole, aliases)? && counts(old, edit, whole, found))
}

/// Whether what is found in place is as the whole text.
fn is_whole_in_place(
    alloc: Global,
    old: &CutText,
    edit: &Edit,
    aliases: &[Items<char>],
    whole: &CutText,
) -> Result<bool, Fault> {
    let found = found_in_place(alloc, old, edit, aliases)?;
    let is_whole = is_whole(alloc, old, edit, aliases, whole, &found);
    drop(found);
    is_whole
}

/// Whether what was found, and what is found in place, is as the whole text.
fn are_whole(
    alloc: Global,
    old: &CutText,
    edit: &Edit,
    aliases: &[Items<char>],
    whole: &CutText,
    found: &Found,
) -> Result<bool, Fault> {
    Ok(
        is_whole(alloc, old, edit, aliases, whole, found)?
            && is_whole_in_place(alloc, old, edit, aliases, whole)?,
    )
}

/// Whether the text, the tokens, the spans and both numbers are those of the whole text, whether
/// the old text stays or its memory is used.
pub(crate) fn is_as_whole(
    alloc: Global,
    old: &CutText,
    edit: &Edit,
    aliases: &[Items<char>],
    found: &Found,
) -> Result<bool, Fault> {
    let whole = whole_of(alloc, old, edit, aliases)?;
    let are_whole = are_whole(alloc, old, edit, aliases, &whole, found);
    drop(whole);
    are_whole
}

/// Answers how many tokens an edit kept at the front and at the back, where all is as in the whole
/// text.
pub(crate) fn put_counts(
    alloc: Global,
    out: &mut String,
    old: &CutText,
    edit: &Edit,
    aliases: &[Items<char>],
    found: &Found,
) -> Answer {
    if !is_as_whole(alloc, old, edit, aliases, found)? {
        return say(out, "another text");
    }
    let front = found.front;
    let back = found.back;
    Ok(write!(out, "{front} and {back}")?)
}
