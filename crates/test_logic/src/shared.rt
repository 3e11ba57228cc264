//! Texts as scalars, and what is told.
use script_lines::{Answer, Call, Fault};
use std::alloc::{AllocError, Global};

/// A text that is to be an answer.
pub(crate) type Told = Result<String, Fault>;

/// Answers what is told.
pub(crate) fn put(out: &mut String, told: Told) -> Answer {
    let told = told?;
    Ok(out.push_str(told.as_str())?)
}

/// The scalars of a text.
pub(crate) fn scalars_of(alloc: Global, text: &str) -> Result<Vec<char>, AllocError> {
    text.chars().collect(alloc)
}

/// Adds the scalars.
pub(crate) fn put_scalars(out: &mut String, scalars: &[char]) -> Result<(), AllocError> {
    for scalar in scalars {
        out.push(*scalar)?;
    }
    Ok(())
}

/// Adds so many times the same text.
fn put_often(out: &mut String, text: &str, times: usize) -> Result<(), AllocError> {
    for _ in 0..times {
        out.push_str(text)?;
    }
    Ok(())
}

/// A text with so many times the same front, and so many times the same back.
fn nested(
    alloc: Global,
    front: &str,
    times: usize,
    inner: &str,
    back: &str,
) -> Result<String, AllocError> {
    let mut text = String::new(alloc);
    put_often(&mut text, front, times)?;
    text.push_str(inner)?;
    put_often(&mut text, back, times)?;
    Ok(text)
}

/// The text that a call tells by how many times its second word stands before its third, with the
/// same number of these behind it.
pub(crate) fn deep_text(alloc: Global, call: &Call<'_>, back: &str) -> Told {
    let times = call.place(0)?;
    Ok(nested(alloc, call.word(1)?, times, call.word(2)?, back)?)
}
