ghost use Rattle.std.specs.Prelude.{◌≡◌, ◌≤◌, ◌<◌, length, IsTrue, IfOk, IfSome};
ghost use Rattle.std.specs.List.{list_all};
ghost use Rattle.text_words.specs.Identifier.{is_identifier_part};
ghost use Rattle.nj_syntax.specs.Lexis.{sign, front_sign, first_token};
ghost use Rattle.nj_syntax.specs.Tokens.{cut_from};
ghost use Rattle.nj_syntax.specs.Next.{cut_by, IsBehind};

use crate::token::{Next, Placed, Token};
use nj_formula::Name;
use std::alloc::{AllocError, Global};
use text_words::{identifier_front, is_blank};

/// Cuts tokens off a text, one after the other, as they are asked for.
#[derive(Drop)]
pub struct Lexer {
    alloc: Global,
}

impl Lexer {
    /// A lexer. It takes memory for names alone.
    pub fn new(alloc: Global) -> Lexer {
        Lexer { alloc }
    }

    /// What stands in the text from the place on, which is told in scalars. It looks no further
    /// than the next token.
    pub fn next(&self, text: &[char], from: usize) -> Result<Next, AllocError>
        requires { from ≤ length text.now }
        ensures value { IfOk result (λ next. cut_from from text.now ≡ cut_by text.now next) }
        ensures behind { IfOk result (λ next. IsBehind text.now from next) }
    {
        let mut at = from;
        'blanks: while at < text.len() {
            if !is_blank(text[at]) {
                let Some((token, length)) = self.first_token(&text[at..])? else {
                    return Ok(Next::Stray(at))
                };
                return Ok(Next::Token(Placed { token, at }, at + length));
            }
            at += 1;
        }
        Ok(Next::End)
    }

    /// The token at the front of the text, and its length in scalars.
    fn first_token(&self, text: &[char]) -> Result<Option<(Token, usize)>, AllocError>
        ensures value { IfOk result (λ found. found ≡ first_token text.now) }
        ensures within { IfOk result (λ found.
            IfSome found (λ t. (0 < t.1) × (t.1 ≤ length text.now))) }
    {
        match identifier_front(text) {
            Some(length) => {
                let name = self.name_of(&text[..length])?;
                Ok(Some((Token::Name(name), length)))
            }
            None => Ok(front_sign(text)),
        }
    }

    /// The name whose scalars these are.
    #[tactic(auto, using(crate::proofs::KnownNames::part_is_ascii))]
    fn name_of(&self, scalars: &[char]) -> Result<Name, AllocError>
        requires { IsTrue (list_all is_identifier_part scalars.now) }
        ensures { IfOk result (λ name. name ≡ scalars.now) }
    {
        let mut letters = String::with_capacity(self.alloc, scalars.len())?;
        for c in scalars {
            letters.push(*c)?;
        }
        Name::from_string(letters)
    }
}

/// The sign at the front of the text, and its length in scalars.
fn front_sign(text: &[char]) -> Option<(Token, usize)>
    ensures value { result ≡ front_sign text.now }
    ensures within { IfSome result (λ t. (0 < t.1) × (t.1 ≤ length text.now)) }
{
    match text {
        ['-', '-', '>', ..] => Some((Token::Implies, 3)),
        [c, ..] => match sign(*c) {
            Some(token) => Some((token, 1)),
            None => None,
        },
        [] => None,
    }
}

/// The sign of one scalar.
fn sign(c: char) -> Option<Token>
    ensures { result ≡ sign c }
{
    match c {
        '~' => Some(Token::Not),
        '&' => Some(Token::And),
        '|' => Some(Token::Or),
        '(' => Some(Token::Open),
        ')' => Some(Token::Close),
        ',' => Some(Token::Comma),
        '.' => Some(Token::Dot),
        _ => None,
    }
}
