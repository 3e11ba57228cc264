//! When two formulas are the same, which names are free, what an instance is (`nj_formula`).
use crate::logic::reading::{known, known_term};
use crate::shared::{deep_text, put};
use nj_formula::{Formula, ObjTerm};
use nj_syntax::print;
use script_lines::{Answer, Call, Fault, joined, say, say_whether};
use std::alloc::{AllocError, Global};

/// Answers of formulas: whether two are the `same`, whether a name is `free`, the `instance` of a
/// generality at a term, or at a name, whether a deep one is `copied`.
pub(crate) fn answer(alloc: Global, out: &mut String, call: &Call<'_>) -> Answer {
    match call.verb {
        "same" => same(
            out,
            known(alloc, call.word(0)?),
            known(alloc, call.word(1)?),
        ),
        "free" => free(out, known(alloc, call.word(0)?), call.word(1)?),
        "instance" => instance_at(alloc, out, call.word(0)?, known_term(alloc, call.word(1)?)),
        "instance-at-name" => instance_at(alloc, out, call.word(0)?, named(alloc, call.word(1)?)),
        "copied" => copied(alloc, out, call),
        _ => Err(Fault::Line),
    }
}

/// Answers whether both formulas say the same.
fn same(out: &mut String, one: Result<Formula, Fault>, other: Result<Formula, Fault>) -> Answer {
    let (one, other) = joined(one, other)?;
    let are_same = one.same(&other);
    drop((one, other));
    say_whether(out, are_same)
}

/// Answers whether the name is free.
fn free(out: &mut String, formula: Result<Formula, Fault>, name: &str) -> Answer {
    let formula = formula?;
    let is_free = formula.has_free(name);
    drop(formula);
    say_whether(out, is_free)
}

/// The term that is a name.
fn named(alloc: Global, name: &str) -> Result<ObjTerm, Fault> {
    Ok(ObjTerm::name(alloc, name)?)
}

/// Answers the print of the instance of a generality at a term.
fn instance_at(
    alloc: Global,
    out: &mut String,
    text: &str,
    term: Result<ObjTerm, Fault>,
) -> Answer {
    let (term, formula) = joined(term, known(alloc, text))?;
    let put = put_instance(alloc, out, &formula, &term);
    drop((term, formula));
    put
}

fn put_instance(alloc: Global, out: &mut String, formula: &Formula, term: &ObjTerm) -> Answer {
    match formula {
        Formula::All(_, body) => printed(alloc, out, body.get().instance(alloc, term)),
        _ => say(out, "no generality"),
    }
}

/// Answers the print of a formula.
pub(crate) fn printed(
    alloc: Global,
    out: &mut String,
    formula: Result<Formula, AllocError>,
) -> Answer {
    let formula = formula?;
    let text = print(alloc, &formula);
    drop(formula);
    put(out, Ok(text?))
}

/// Answers whether so many times the front before the back is the same as its copy.
fn copied(alloc: Global, out: &mut String, call: &Call<'_>) -> Answer {
    let text = deep_text(alloc, call, "")?;
    is_as_copy(alloc, out, known(alloc, text.as_str()))
}

/// Answers whether the formula is the same as its copy.
fn is_as_copy(alloc: Global, out: &mut String, formula: Result<Formula, Fault>) -> Answer {
    let formula = formula?;
    let copy = formula.copy(alloc)?;
    let are_same = copy.same(&formula);
    drop((copy, formula));
    say_whether(out, are_same)
}
