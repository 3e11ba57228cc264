//! The answer to a line.
use crate::fault::Fault;
use crate::words::{lent, words_of};
use std::alloc::{AllocError, Global};

/// Whether a call was answered.
pub type Answer = Result<(), Fault>;

/// What answers the calls of a script.
pub trait Script {
    /// Makes all anew.
    fn begin(&mut self, alloc: Global) -> Answer;

    /// Makes the call of these words, and writes its answer. Blanks at the answer's ends are left
    /// out, an empty answer is a `-`, and a scalar that isn't seen is `%` and the two digits of its
    /// number.
    fn answer(&mut self, alloc: Global, words: &[&str], out: &mut String) -> Answer;
}

/// Answers by these words.
pub fn say(out: &mut String, words: &str) -> Answer {
    Ok(out.push_str(words)?)
}

/// Answers a question.
pub fn say_whether(out: &mut String, holds: bool) -> Answer {
    say(out, if holds { "yes" } else { "no" })
}

/// The answer to a line. An empty line, and a heading, which begins with a `#`, is its own answer;
/// behind a heading all is new.
pub fn answered<S: Script>(
    alloc: Global,
    script: &mut S,
    line: &str,
) -> Result<String, AllocError> {
    if line.starts_with('#') && script.begin(alloc).is_err() {
        return Err(AllocError);
    }
    if line.is_empty() || line.starts_with('#') {
        return String::from_str(alloc, line);
    }
    told(alloc, script, line)
}

/// The answer to a line that is to be a call.
fn told<S: Script>(alloc: Global, script: &mut S, line: &str) -> Result<String, AllocError> {
    let mut out = String::new(alloc);
    match called(alloc, script, line, &mut out) {
        Ok(()) => shown(alloc, out.as_str().trim()),
        Err(Fault::Line) => String::from_str(alloc, "wrong line"),
        Err(Fault::NoMemory) => Err(AllocError),
    }
}

/// Makes the call of a line.
fn called<S: Script>(alloc: Global, script: &mut S, line: &str, out: &mut String) -> Answer {
    let words = words_of(alloc, line)?;
    let lent = lent(alloc, words.as_slice())?;
    script.answer(alloc, lent.as_slice(), out)
}

/// An answer so that all of it is seen.
fn shown(alloc: Global, answer: &str) -> Result<String, AllocError> {
    let mut shown = String::from_str(alloc, if answer.is_empty() { "-" } else { "" })?;
    for scalar in answer.chars() {
        put_scalar(&mut shown, scalar)?;
    }
    Ok(shown)
}

fn put_scalar(shown: &mut String, scalar: char) -> Result<(), AllocError> {
    match scalar {
        '\0'..='\u{1f}' | '%' | '\u{7f}' => write!(shown, "%{:02X}", u32::from(scalar)),
        _ => shown.push(scalar),
    }
}
