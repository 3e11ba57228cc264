//! What texts are read as, and where they are at fault (`nj_syntax`).
use crate::shared::{deep_text, scalars_of};
use nj_formula::{Formula, ObjTerm};
use nj_syntax::{FormulaFault, parse, parse_term};
use script_lines::{Answer, Call, Fault};
use std::alloc::{AllocError, Global};

/// Answers what reading a text tells, as a `formula`, as a `term`, or of so many times one text
/// before another, `deep`.
pub(crate) fn answer(alloc: Global, out: &mut String, call: &Call<'_>) -> Answer {
    match call.verb {
        "formula" => Ok(put_formula(alloc, out, call.word(0)?)?),
        "term" => Ok(put_term(alloc, out, call.word(0)?)?),
        "deep" => deep(alloc, out, call),
        _ => Err(Fault::Line),
    }
}

/// The formula that a text is.
pub(crate) fn formula(alloc: Global, text: &str) -> Result<Formula, FormulaFault> {
    let scalars = scalars_of(alloc, text)?;
    parse(alloc, scalars.as_slice())
}

/// The term that a text is.
fn term(alloc: Global, text: &str) -> Result<ObjTerm, FormulaFault> {
    let scalars = scalars_of(alloc, text)?;
    parse_term(alloc, scalars.as_slice())
}

/// Why a line whose text is no formula has no answer.
fn unread(fault: FormulaFault) -> Fault {
    match fault {
        FormulaFault::NoMemory => Fault::NoMemory,
        _ => Fault::Line,
    }
}

/// The formula of a text that has to be one.
pub(crate) fn known(alloc: Global, text: &str) -> Result<Formula, Fault> {
    match formula(alloc, text) {
        Ok(formula) => Ok(formula),
        Err(fault) => Err(unread(fault)),
    }
}

/// The term of a text that has to be one.
pub(crate) fn known_term(alloc: Global, text: &str) -> Result<ObjTerm, Fault> {
    match term(alloc, text) {
        Ok(term) => Ok(term),
        Err(fault) => Err(unread(fault)),
    }
}

/// Adds what a fault tells.
fn put_fault(out: &mut String, fault: &FormulaFault) -> Result<(), AllocError> {
    match fault {
        FormulaFault::At { pos, kind } => write!(out, "{kind:?} at {pos}"),
        FormulaFault::TooDeep => out.push_str("too deep"),
        FormulaFault::NoMemory => Err(AllocError),
    }
}

/// Adds what reading a formula tells.
fn put_formula(alloc: Global, out: &mut String, text: &str) -> Result<(), AllocError> {
    match formula(alloc, text) {
        Ok(_) => out.push_str("read"),
        Err(fault) => put_fault(out, &fault),
    }
}

/// Adds what reading a term tells.
fn put_term(alloc: Global, out: &mut String, text: &str) -> Result<(), AllocError> {
    match term(alloc, text) {
        Ok(_) => out.push_str("read"),
        Err(fault) => put_fault(out, &fault),
    }
}

/// Answers what reading so many times the front before the back tells.
fn deep(alloc: Global, out: &mut String, call: &Call<'_>) -> Answer {
    let text = deep_text(alloc, call, "")?;
    Ok(put_formula(alloc, out, text.as_str())?)
}
