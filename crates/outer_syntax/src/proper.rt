//! The proper tokens: all but spaces and comments.
ghost use Rattle.std.specs.Prelude.{◌≡◌, ◌∷◌, ◌≤◌, IfOk, length};
ghost use Rattle.outer_syntax.specs.Words.{is_in_force};
ghost use Rattle.outer_syntax.specs.Headings.{proper};
ghost use Rattle.outer_syntax.specs.Lexing.{tokens_under};
ghost use Rattle.outer_syntax.specs.ProperTokens.{proper_from, IsNextProper};

use crate::kind::is_proper;
use crate::lexer::{FEW, next_token};
use crate::token::Token;
use sqlite_items::Items;
use std::alloc::{AllocError, Global};

/// The first proper token of the text from the place on, where these names are commands beside
/// those of the language. `None` comes exactly where there is none.
pub fn next_proper(text: &[char], names: &[Items<char>], place: usize) -> Option<Token>
    requires { place ≤ length text.now }
    ensures { IsNextProper (is_in_force names.now) text.now place result }
{
    let mut place = place;
    while let Some(token) = next_token(text, names, place) {
        if is_proper(token.kind) {
            return Some(token);
        }
        place = token.range.stop;
    }
    None
}

/// This token, and behind it the proper ones of the text from its end on, where these names are
/// commands beside those of the language.
pub fn proper_after(
    alloc: Global,
    text: &[char],
    names: &[Items<char>],
    first: Token,
) -> Result<Vec<Token>, AllocError>
    requires { first.range.stop ≤ length text.now }
    ensures { IfOk result (λ v. v.items
        ≡ first ∷ proper_from (is_in_force names.now) text.now first.range.stop) }
{
    let mut tokens = Vec::with_capacity(alloc, FEW)?;
    tokens.push(first)?;
    let mut place = first.range.stop;
    while let Some(token) = next_proper(text, names, place) {
        tokens.push(token)?;
        place = token.range.stop;
    }
    Ok(tokens)
}

/// The proper tokens of a piece of text, where these names are commands beside those of the
/// language from its beginning on.
pub fn proper_under(
    alloc: Global,
    text: &[char],
    names: &[Items<char>],
) -> Result<Vec<Token>, AllocError>
    ensures { IfOk result (λ v. v.items
        ≡ proper (tokens_under (λ _. is_in_force names.now) text.now)) }
{
    match next_proper(text, names, 0) {
        Some(first) => proper_after(alloc, text, names, first),
        None => Ok(Vec::new(alloc)),
    }
}
