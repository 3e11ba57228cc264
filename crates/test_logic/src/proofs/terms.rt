//! Proof terms read from tokens (`proof_terms`).
use crate::shared::{deep_text, scalars_of};
use outer_syntax::{Token, proper_under};
use proof_terms::{Term, TermError, read, rule_named};
use script_lines::{Answer, Call, Fault, say};
use std::alloc::{AllocError, Global};

/// Answers what reading a text tells, `read` or its fault, also of so many `nested` openings before
/// a text, and as many `)` behind it; or the names of a `rule`, as it is debugged and in terms.
pub(crate) fn answer(alloc: Global, out: &mut String, call: &Call<'_>) -> Answer {
    match call.verb {
        "read" => told(out, term(alloc, call.word(0)?)),
        "nested" => nested_told(alloc, out, deep_text(alloc, call, ")")?),
        "rule" => named(out, scalars_of(alloc, call.word(0)?)),
        _ => Err(Fault::Line),
    }
}

/// The term that a text is, no alias being in force.
pub(crate) fn term(alloc: Global, text: &str) -> Result<Term, TermError> {
    let source = scalars_of(alloc, text)?;
    term_of(
        alloc,
        source.as_slice(),
        proper_under(alloc, source.as_slice(), &[]),
    )
}

/// The term that the tokens of a source are.
fn term_of(
    alloc: Global,
    source: &[char],
    tokens: Result<Vec<Token>, AllocError>,
) -> Result<Term, TermError> {
    let tokens = tokens?;
    read(alloc, source, tokens.as_slice())
}

/// Answers what reading tells.
fn told(out: &mut String, read: Result<Term, TermError>) -> Answer {
    match read {
        Ok(term) => {
            drop(term);
            say(out, "read")
        }
        Err(TermError::Fault(fault)) => {
            let put = write!(out, "{fault}");
            drop(fault);
            Ok(put?)
        }
        Err(TermError::NoMemory) => Err(Fault::NoMemory),
    }
}

/// Answers what reading of a text tells.
fn nested_told(alloc: Global, out: &mut String, text: String) -> Answer {
    told(out, term(alloc, text.as_str()))
}

/// Answers the rule of this name, and its name, or `none`.
fn named(out: &mut String, name: Result<Vec<char>, AllocError>) -> Answer {
    match rule_named(name?.as_slice()) {
        Some(rule) => {
            let name = rule.name();
            Ok(write!(out, "{rule:?} {name}")?)
        }
        None => say(out, "none"),
    }
}
