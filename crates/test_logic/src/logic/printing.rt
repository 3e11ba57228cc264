//! How formulas and terms are printed (`nj_syntax`).
use crate::logic::reading::{formula, known, known_term};
use crate::shared::{Told, deep_text, put};
use nj_formula::Formula;
use nj_syntax::{print, print_term};
use script_lines::{Answer, Call, Fault, say};
use std::alloc::Global;

/// Answers of prints: that of a `formula` or a `term`, whether so many times one text before another
/// is printed as `itself`, whether what is read of a print is `the same`.
pub(crate) fn answer(alloc: Global, out: &mut String, call: &Call<'_>) -> Answer {
    match call.verb {
        "formula" => put(out, printed(alloc, call.word(0)?)),
        "term" => put(out, printed_term(alloc, call.word(0)?)),
        "deep" => deep(alloc, out, call),
        "again" => again(alloc, out, known(alloc, call.word(0)?)),
        _ => Err(Fault::Line),
    }
}

/// The print of the formula that the text is.
fn printed(alloc: Global, text: &str) -> Told {
    let formula = known(alloc, text)?;
    Ok(print(alloc, &formula)?)
}

/// The print of the term that the text is.
fn printed_term(alloc: Global, text: &str) -> Told {
    let term = known_term(alloc, text)?;
    Ok(print_term(alloc, term.argument())?)
}

/// Answers `itself`, or the print where it is something else than the text.
fn deep(alloc: Global, out: &mut String, call: &Call<'_>) -> Answer {
    let text = deep_text(alloc, call, "")?;
    put_unless(out, printed(alloc, text.as_str()), text.as_str())
}

/// The same, of a print.
fn put_unless(out: &mut String, told: Told, text: &str) -> Answer {
    let told = told?;
    if told.as_str() == text {
        return say(out, "itself");
    }
    say(out, told.as_str())
}

/// Answers whether what is read of the print says the same.
fn again(alloc: Global, out: &mut String, read: Result<Formula, Fault>) -> Answer {
    let read = read?;
    let told = print(alloc, &read)?;
    match formula(alloc, told.as_str()) {
        Ok(again) if again.same(&read) => say(out, "the same"),
        _ => say(out, "another"),
    }
}
