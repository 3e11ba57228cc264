//! The words of a line.
use crate::fault::Fault;
use std::alloc::{AllocError, Global};

/// The words of a line: what stands between blanks, and what stands between single quotes, blanks
/// and all, where `%` and two digits stand for the scalar of that number. What stands behind a `#`
/// is said of the line, and is none of its words. A fault where other things follow a `%`.
pub fn words_of(alloc: Global, line: &str) -> Result<Vec<String>, Fault> {
    let mut words = Vec::new(alloc);
    let mut is_quoted = false;
    for piece in line.split('\'') {
        if is_quoted {
            put_word(&mut words, decoded(alloc, piece)?)?;
        } else if !put_bare(alloc, &mut words, piece)? {
            return Ok(words);
        }
        is_quoted = !is_quoted;
    }
    Ok(words)
}

/// The words, lent.
pub fn lent(alloc: Global, words: &[String]) -> Result<Vec<&str>, AllocError> {
    let mut lent = Vec::new(alloc);
    for word in words {
        lent.push(word.as_str())?;
    }
    Ok(lent)
}

fn put_word(words: &mut Vec<String>, word: String) -> Result<(), AllocError> {
    Ok(words.push(word)?)
}

/// Adds what stands between blanks, up to a `#`. False where there is one.
fn put_bare(alloc: Global, words: &mut Vec<String>, piece: &str) -> Result<bool, AllocError> {
    for word in piece.split_whitespace() {
        if word.starts_with('#') {
            return Ok(false);
        }
        put_word(words, String::from_str(alloc, word)?)?;
    }
    Ok(true)
}

/// The text that is written so.
fn decoded(alloc: Global, written: &str) -> Result<String, Fault> {
    let mut text = String::new(alloc);
    let mut is_first = true;
    for piece in written.split('%') {
        if is_first {
            text.push_str(piece)?;
        } else {
            put_numbered(&mut text, piece)?;
        }
        is_first = false;
    }
    Ok(text)
}

/// Adds what is written behind a `%`: the scalar of the two digits, and what follows them.
fn put_numbered(text: &mut String, piece: &str) -> Result<(), Fault> {
    let mut scalars = piece.chars();
    let (Some(first), Some(second)) = (scalars.next(), scalars.next()) else {
        return Err(Fault::Line);
    };
    let (Some(high), Some(low)) = (first.to_digit(16), second.to_digit(16)) else {
        return Err(Fault::Line);
    };
    text.push(char::from((high * 16 + low) as u8))?;
    Ok(text.push_str(scalars.as_str())?)
}

/// The number that a word spells.
pub fn number(word: &str) -> Result<u64, Fault> {
    match word.parse::<u64>() {
        Ok(number) => Ok(number),
        Err(_) => Err(Fault::Line),
    }
}

/// The place that a word spells.
pub fn place(word: &str) -> Result<usize, Fault> {
    match word.parse::<usize>() {
        Ok(place) => Ok(place),
        Err(_) => Err(Fault::Line),
    }
}

/// The two places that a word as `3-7` spells.
pub fn range(word: &str) -> Result<(usize, usize), Fault> {
    let Some((start, stop)) = word.split_once('-') else {
        return Err(Fault::Line);
    };
    Ok((place(start)?, place(stop)?))
}
