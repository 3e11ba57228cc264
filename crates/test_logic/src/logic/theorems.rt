//! Calls of rules one after the other, and what they answer (`nj_kernel`).
use crate::logic::rule_calls::called;
use crate::shared::put;
use nj_kernel::{Hyp, RuleError, Thm};
use nj_syntax::print;
use script_lines::{Answer, Call, Fault};
use sqlite_items::Items;
use std::alloc::{AllocError, Global};

/// The theorems that were made.
#[derive(Drop)]
pub(crate) struct Theorems {
    made: Items<Thm>,
}

impl Theorems {
    pub(crate) fn new(alloc: Global) -> Theorems {
        Theorems {
            made: Items::new(alloc),
        }
    }
}

/// Answers what the call of a rule does: the theorem that it makes, as `A, B |- A & B`, or the
/// premise that the rule blames, as `conjE1 blames 1`.
pub(crate) fn answer(
    alloc: Global,
    out: &mut String,
    theorems: &mut Theorems,
    call: &Call<'_>,
) -> Answer {
    let answer = called(alloc, theorems.made.as_slice(), call)?;
    keep(alloc, out, &mut theorems.made, answer)
}

/// Answers what a rule does, and keeps the theorem that it has made.
fn keep(
    alloc: Global,
    out: &mut String,
    made: &mut Items<Thm>,
    answer: Result<Thm, RuleError>,
) -> Answer {
    match answer {
        Ok(thm) => {
            let told = put_theorem(alloc, out, &thm);
            made.push(thm)?;
            told
        }
        Err(RuleError::Fault(fault)) => {
            let rule = fault.rule.name();
            let premise = fault.premise;
            Ok(write!(out, "{rule} blames {premise}")?)
        }
        Err(RuleError::NoMemory) => Err(Fault::NoMemory),
    }
}

/// The assumptions as they are printed, in the order of their letters.
fn printed(alloc: Global, hyps: &[Hyp]) -> Result<Vec<String>, AllocError> {
    let mut texts = Vec::new(alloc);
    for hyp in hyps {
        push(&mut texts, print(alloc, hyp.formula()))?;
    }
    texts.sort()?;
    Ok(texts)
}

/// Adds a text to a list.
fn push(texts: &mut Vec<String>, text: Result<String, AllocError>) -> Result<(), AllocError> {
    Ok(texts.push(text?)?)
}

/// Adds the texts, with a comma behind each but the last.
fn put_list(out: &mut String, texts: Result<Vec<String>, AllocError>) -> Result<(), AllocError> {
    let texts = texts?;
    let put = put_each(out, texts.as_slice());
    drop(texts);
    put
}

fn put_each(out: &mut String, texts: &[String]) -> Result<(), AllocError> {
    for (place, text) in texts.iter().enumerate() {
        out.push_str(if place == 0 { "" } else { ", " })?;
        out.push_str(text.as_str())?;
    }
    Ok(())
}

/// Answers a theorem: what it assumes, whatever the order, and what it shows.
fn put_theorem(alloc: Global, out: &mut String, thm: &Thm) -> Answer {
    put_list(out, printed(alloc, thm.hyps()))?;
    out.push_str(" |- ")?;
    put(out, Ok(print(alloc, thm.concl())?))
}
