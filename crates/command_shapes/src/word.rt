//! What a token is to a command's shape.
ghost use Rattle.std.specs.Prelude.{◌≡◌, ◌∷◌, [], IfOk};
ghost use Rattle.doc_nodes.specs.Names.{equal};
ghost use Rattle.outer_syntax.specs.Contents.{content_of};
ghost use Rattle.outer_syntax.specs.Tokens.{text_of};
ghost use Rattle.isar_rules.specs.Words.{word, sign, spot, spot_of};
ghost use Rattle.command_shapes.specs.Seen.{seen};

use isar_rules::Spot;
use outer_syntax::{Kind, Token, content, scalars};
use sqlite_items::Items;
use std::alloc::{AllocError, Global};
use std::cmp::Ordering;

/// A name, a quoted text, `:`, `-`, or none of these.
#[derive(Drop)]
pub(crate) enum Word {
    Name(Spot),
    Quoted(Spot),
    Colon,
    Dash,
    Other,
}

/// The scalars of a token, and where it stands.
pub(crate) fn spot_of(alloc: Global, source: &[char], token: Token) -> Result<Spot, AllocError>
    ensures { IfOk result (λ s. s ≡ spot_of source.now token) }
{
    Ok(Spot {
        text: Items::from_slice(alloc, scalars(source, token.range))?,
        range: token.range,
    })
}

/// The content of a token, and where it stands.
fn quoted(alloc: Global, source: &[char], token: Token) -> Result<Spot, AllocError>
    ensures { IfOk result (λ s. s
        ≡ spot (content_of token.kind (text_of source.now token)) token.range) }
{
    Ok(Spot {
        text: Items::from_vec(content(alloc, token.kind, scalars(source, token.range))?),
        range: token.range,
    })
}

/// Whether the text is this scalar alone.
fn is_sign(text: &[char], sign: char) -> bool
    ensures { result ≡ equal text.now (sign ∷ []) }
{
    let alone: &[char] = &[sign];
    match text.cmp(alone) {
        Ordering::Equal => true,
        Ordering::Less | Ordering::Greater => false,
    }
}

/// A sign of one scalar.
fn sign(text: &[char]) -> Word
    ensures { seen result ≡ sign text.now }
{
    if is_sign(text, ':') {
        Word::Colon
    } else if is_sign(text, '-') {
        Word::Dash
    } else {
        Word::Other
    }
}

/// What the token of the source is.
pub(crate) fn word_of(alloc: Global, source: &[char], token: Token) -> Result<Word, AllocError>
    ensures { IfOk result (λ w. seen w ≡ word token.kind (text_of source.now token) token.range) }
{
    match token.kind {
        Kind::Ident => Ok(Word::Name(spot_of(alloc, source, token)?)),
        Kind::String | Kind::Cartouche => Ok(Word::Quoted(quoted(alloc, source, token)?)),
        Kind::Sym => Ok(sign(scalars(source, token.range))),
        _ => Ok(Word::Other),
    }
}
