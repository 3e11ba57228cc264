//! The tokens of a text.

ghost use Rattle.std.specs.Prelude.{◌≡◌, ◌≤◌, IfOk, MatchOption, length};
ghost use Rattle.outer_syntax.specs.Words.{is_in_force};
ghost use Rattle.outer_syntax.specs.Tokens.{IsTokenAt, AreTokensUnder};
ghost use Rattle.outer_syntax.specs.Headings.{AreTokens};

use crate::row::first_row;
use crate::stage::{Stage, after_token, given};
use crate::token::Token;
use crate::word::kind_of;
use pide_base::Range;
use sqlite_items::Items;
use std::alloc::{AllocError, Global};

/// Room for the tokens of a short command: with less, most commands would move theirs twice.
pub(crate) const FEW: usize = 16;

/// The token of the text that begins at the place, where these names are commands beside those of
/// the language. `None` comes exactly at the text's end.
pub fn next_token(text: &[char], names: &[Items<char>], place: usize) -> Option<Token>
    requires { place ≤ length text.now }
    ensures { MatchOption result (place ≡ length text.now)
        (IsTokenAt (is_in_force names.now) text.now place) }
{
    if place == text.len() {
        return None;
    }
    let (row, size) = first_row(&text[place..]);
    let stop = place + size;
    let kind = kind_of(names, row, &text[place..stop]);
    Some(Token {
        kind,
        range: Range { start: place, stop },
    })
}

/// The tokens of a piece of text, where these names are commands beside those of the language from
/// its beginning on. They join to it.
pub fn lex_under(
    alloc: Global,
    text: &[char],
    names: &[Items<char>],
) -> Result<Vec<Token>, AllocError>
    ensures { IfOk result (λ v. AreTokensUnder (λ _. is_in_force names.now) text.now v.items) }
{
    let mut tokens = Vec::with_capacity(alloc, FEW)?;
    let mut place = 0;
    while let Some(token) = next_token(text, names, place) {
        tokens.push(token)?;
        place = token.range.stop;
    }
    Ok(tokens)
}

/// The tokens of the text, which join to it. Up to and with the header's `begin`, and in a text
/// without a header, the command names are those of the language; after it they are these and the
/// aliases.
pub fn lex(alloc: Global, text: &[char], aliases: &[Items<char>]) -> Result<Vec<Token>, AllocError>
    ensures { IfOk result (λ v. AreTokens text.now aliases.now v.items) }
{
    let mut tokens = Vec::with_capacity(alloc, FEW)?;
    let mut stage = Stage::Start;
    let mut place = 0;
    while let Some(token) = next_token(text, given(stage, aliases), place) {
        tokens.push(token)?;
        stage = after_token(text, stage, token);
        place = token.range.stop;
    }
    Ok(tokens)
}
