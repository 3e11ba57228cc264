//! How the text of a formula is cut into tokens (`nj_syntax`).
use crate::shared::scalars_of;
use nj_syntax::{Lexer, Next, Token};
use script_lines::{Answer, Call, Fault};
use std::alloc::{AllocError, Global};

/// Answers the marks of the tokens of a text with their places, and where they stop: `$` at a stray
/// scalar.
pub(crate) fn answer(alloc: Global, out: &mut String, call: &Call<'_>) -> Answer {
    match call.verb {
        "of" => Ok(put_marks(alloc, out, scalars_of(alloc, call.word(0)?))?),
        _ => Err(Fault::Line),
    }
}

/// The mark of a token.
fn mark(token: &Token) -> char {
    match token {
        Token::Name(_) => 'n',
        Token::Not => '~',
        Token::And => '&',
        Token::Or => '|',
        Token::Implies => '>',
        Token::Open => '(',
        Token::Close => ')',
        Token::Comma => ',',
        Token::Dot => '.',
    }
}

/// Adds the marks of the tokens.
fn put_marks(
    alloc: Global,
    out: &mut String,
    text: Result<Vec<char>, AllocError>,
) -> Result<(), AllocError> {
    let text = text?;
    let lexer = Lexer::new(alloc);
    let mut from = 0;
    for _ in 0..u64::MAX {
        if text.len() < from {
            break;
        }
        match lexer.next(text.as_slice(), from)? {
            Next::Token(placed, behind) => {
                put_mark(out, mark(&placed.token), placed.at)?;
                from = behind;
            }
            Next::Stray(at) => return put_mark(out, '$', at),
            Next::End => break,
        }
    }
    Ok(())
}

/// Adds a mark and a place.
fn put_mark(out: &mut String, mark: char, at: usize) -> Result<(), AllocError> {
    write!(out, "{mark}{at}")
}
