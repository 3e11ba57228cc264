//! How the header is read off the tokens.

ghost use Rattle.std.specs.Prelude.{◌≡◌, IfOk, MatchOption};
ghost use Rattle.outer_syntax.specs.Tokens.{text_of};
ghost use Rattle.outer_syntax.specs.Lexing.{header_end};
ghost use Rattle.outer_syntax.specs.Headers.{HasHeader, HasNoHeader};
ghost use Rattle.outer_syntax.specs.Reading.{empty_reading, taken_in, advanced};

use crate::contents::content;
use crate::kind::{Kind, is_proper};
use crate::lexer::next_token;
use crate::parts::{Header, KeywordPair};
use crate::stage::{Stage, after_token};
use crate::token::{Token, scalars};
use sqlite_items::Items;
use std::alloc::{AllocError, Global};

/// How far a header has been read, what it told so far, and the name of a pair that isn't read to
/// its end.
#[derive(Debug, Drop)]
struct Reading {
    stage: Stage,
    header: Header,
    pair: Items<char>,
}

impl Reading {
    /// Nothing has been read.
    fn new(alloc: Global) -> Reading
        ensures { result ≡ empty_reading }
    {
        Reading {
            stage: Stage::Start,
            header: Header {
                name: Items::new(alloc),
                imports: Items::new(alloc),
                keywords: Items::new(alloc),
            },
            pair: Items::new(alloc),
        }
    }

    /// Takes in the word by which the header has come to its stage.
    fn take_in(&mut self, alloc: Global, word: &[char]) -> Result<(), AllocError>
        ensures { IfOk result (λ _. self.new ≡ taken_in word.now self.old) }
    {
        match self.stage {
            Stage::Name => self.header.name = Items::from_slice(alloc, word)?,
            Stage::Import => self.header.imports.push(Items::from_slice(alloc, word)?)?,
            Stage::PairName => self.pair = Items::from_slice(alloc, word)?,
            Stage::Pair => {
                let target = Items::from_vec(content(alloc, Kind::String, word)?);
                let name = std::mem::replace(&mut self.pair, Items::new(alloc));
                self.header.keywords.push(KeywordPair { name, target })?;
            }
            _ => {}
        }
        Ok(())
    }

    /// Goes on with the next token of the text.
    fn advance(&mut self, alloc: Global, text: &[char], token: Token) -> Result<(), AllocError>
        ensures { IfOk result (λ _. self.new ≡ advanced text.now token self.old) }
    {
        self.stage = after_token(text, self.stage, token);
        if is_proper(token.kind) {
            self.take_in(alloc, scalars(text, token.range))?;
        }
        Ok(())
    }
}

/// The header of the text. `None` comes exactly where its proper tokens don't begin with one. No
/// more of the text is read than its header, or than what shows that it has none.
pub fn header(alloc: Global, text: &[char]) -> Result<Option<Header>, AllocError>
    ensures { IfOk result (λ found. MatchOption found (HasNoHeader text.now) (HasHeader text.now)) }
{
    let mut reading = Reading::new(alloc);
    let mut place = 0;
    while let Some(token) = next_token(text, &[], place) {
        reading.advance(alloc, text, token)?;
        match reading.stage {
            Stage::Ended => return Ok(Some(reading.header)),
            Stage::Absent => return Ok(None),
            _ => place = token.range.stop,
        }
    }
    Ok(None)
}

/// Where the header of the text ends, in scalars: after its `begin`. `None` comes exactly where
/// there is no header. No more of the text is read than for the header.
pub fn header_stop(text: &[char]) -> Option<usize>
    ensures { result ≡ header_end text.now }
{
    let mut stage = Stage::Start;
    let mut place = 0;
    while let Some(token) = next_token(text, &[], place) {
        stage = after_token(text, stage, token);
        match stage {
            Stage::Ended => return Some(token.range.stop),
            Stage::Absent => return None,
            _ => place = token.range.stop,
        }
    }
    None
}
