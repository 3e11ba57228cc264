//! Values that are written as words, and what is told of them.
use script_lines::{Answer, Fault};
use sqlite_items::Items;
use std::alloc::{AllocError, Global};

/// A text that is to be an answer.
pub(crate) type Told = Result<String, Fault>;

/// Answers what is told.
pub(crate) fn put(out: &mut String, told: Told) -> Answer {
    let told = told?;
    Ok(out.push_str(told.as_str())?)
}

/// The scalars of a text.
pub(crate) fn scalars_of(alloc: Global, text: &str) -> Result<Vec<char>, AllocError> {
    text.chars().collect(alloc)
}

/// Adds the scalars.
pub(crate) fn put_scalars(out: &mut String, scalars: &[char]) -> Result<(), AllocError> {
    for scalar in scalars {
        out.push(*scalar)?;
    }
    Ok(())
}

/// Adds the scalars in quotes.
pub(crate) fn put_quoted(out: &mut String, scalars: &[char]) -> Result<(), AllocError> {
    out.push('\'')?;
    put_scalars(out, scalars)?;
    out.push('\'')
}

/// The scalars of a name.
pub(crate) fn items_of(alloc: Global, name: &str) -> Result<Items<char>, AllocError> {
    Ok(Items::from_vec(scalars_of(alloc, name)?))
}

/// Adds a name.
fn push_name(
    names: &mut Vec<Items<char>>,
    name: Result<Items<char>, AllocError>,
) -> Result<(), AllocError> {
    Ok(names.push(name?)?)
}

/// The names that a word lists, with commas between them; `-` is none.
pub(crate) fn names_of(alloc: Global, word: &str) -> Result<Vec<Items<char>>, AllocError> {
    let mut names = Vec::new(alloc);
    if word != "-" {
        for name in word.split(',') {
            push_name(&mut names, items_of(alloc, name))?;
        }
    }
    Ok(names)
}

/// Adds what is told twice, or both where they differ.
pub(crate) fn put_agreed(out: &mut String, one: &str, other: &str) -> Result<(), AllocError> {
    out.push_str(one)?;
    if one == other {
        return Ok(());
    }
    write!(out, " but {other}")
}

/// Adds a number, or `none`.
pub(crate) fn put_number(out: &mut String, number: Option<usize>) -> Result<(), AllocError> {
    match number {
        Some(number) => write!(out, "{number}"),
        None => out.push_str("none"),
    }
}
