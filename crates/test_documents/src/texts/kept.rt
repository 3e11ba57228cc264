//! How many tokens an edit leaves alone (`command_spans`).
use crate::shared::{Told, names_of, put_agreed};
use crate::texts::cut_text::{CutText, cut};
use crate::texts::told::{edit_of, put_fault};
use crate::texts::whole::put_counts;
use script_lines::{Answer, Call, joined, once};
use sqlite_items::Items;
use std::alloc::Global;
use text_edits::Edit;

/// Answers of an edit of a text: how many tokens are kept at the front and at the back.
pub(crate) fn answer(alloc: Global, out: &mut String, call: &Call<'_>) -> Answer {
    let before = call.word(1)?;
    let edit = edit_of(alloc, call.verb, call.place(0)?, call.word(2)?)?;
    let none = kept_from(alloc, before, &edit, "-");
    let some = kept_from(alloc, before, &edit, "claim,x");
    drop(edit);
    put_both(out, none, some)
}

/// Answers what is told twice.
fn put_both(out: &mut String, one: Told, other: Told) -> Answer {
    let (one, other) = joined(one, other)?;
    Ok(put_agreed(out, one.as_str(), other.as_str())?)
}

/// How many tokens the edit keeps, with these aliases before it, and with some or none after it.
fn kept_from(alloc: Global, before: &str, edit: &Edit, under: &str) -> Told {
    let old = cut(alloc, before, under)?;
    let none = kept(alloc, &old, edit, "-");
    let some = kept(alloc, &old, edit, "claim,x");
    drop(old);
    let mut out = String::new(alloc);
    put_both(&mut out, none, some)?;
    Ok(out)
}

/// How many tokens the edit keeps, with aliases after it.
fn kept(alloc: Global, old: &CutText, edit: &Edit, over: &str) -> Told {
    let aliases = names_of(alloc, over)?;
    let mut out = String::new(alloc);
    let put = put_kept(alloc, &mut out, old, edit, &aliases);
    drop(aliases);
    once(put, out)
}

/// The same, of their names.
fn put_kept(
    alloc: Global,
    out: &mut String,
    old: &CutText,
    edit: &Edit,
    aliases: &[Items<char>],
) -> Answer {
    match old.edited(alloc, edit, aliases) {
        Ok(found) => {
            let put = put_counts(alloc, out, old, edit, aliases, &found);
            drop(found);
            put
        }
        Err(fault) => Ok(put_fault(out, fault)?),
    }
}
