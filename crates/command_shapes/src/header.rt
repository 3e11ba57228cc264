//! The shape of a header.
ghost use Rattle.std.specs.Prelude.{◌≡◌, IfOk, length, map, take, option_map};
ghost use Rattle.outer_syntax.specs.Reading.{header_in};
ghost use Rattle.isar_rules.specs.Words.{spot_of};
ghost use Rattle.isar_rules.specs.Shapes.{last_stop, is_header, headed, header_shape};

use crate::word::spot_of;
use isar_rules::{Shape, Spot};
use joined_results::both;
use outer_syntax::{Token, header, header_stop, one_header};
use sqlite_items::Items;
use std::alloc::{AllocError, Global};

/// Where the last token ends.
fn last_stop(tokens: &[Token]) -> usize
    ensures { result ≡ last_stop tokens.now }
{
    match tokens {
        [.., last] => last.range.stop,
        [] => 0,
    }
}

/// Whether the tokens are a header and nothing behind it.
fn is_header(source: &[char], tokens: &[Token]) -> bool
    ensures { result ≡ is_header source.now tokens.now }
{
    match header_stop(source) {
        Some(stop) => stop == last_stop(tokens),
        None => false,
    }
}

/// How many imports the header of the source has.
fn import_count(alloc: Global, source: &[char]) -> Result<Option<usize>, AllocError>
    ensures { IfOk result (λ n. n ≡ option_map (λ h. length h.imports) (header_in source.now)) }
{
    one_header();
    match header(alloc, source)? {
        Some(header) => Ok(Some(header.imports.len())),
        None => Ok(None),
    }
}

/// The scalars of the tokens, and where they stand.
fn spots(alloc: Global, source: &[char], tokens: &[Token]) -> Result<Items<Spot>, AllocError>
    ensures { IfOk result (λ spots. spots ≡ map (spot_of source.now) tokens.now) }
{
    let mut spots = Items::new(alloc);
    let mut rest = tokens;
    'tokens: while let [token, more @ ..] = rest {
        spots.push(spot_of(alloc, source, *token)?)?;
        rest = more;
    }
    Ok(spots)
}

/// The first so many of the tokens.
fn first_of(tokens: &[Token], count: usize) -> &[Token]
    ensures { result.now ≡ take count tokens.now }
{
    &tokens[..count.min(tokens.len())]
}

/// `theory`, a name, and perhaps `imports` and so many names.
fn headed(
    alloc: Global,
    source: &[char],
    count: usize,
    tokens: &[Token],
) -> Result<Option<Shape>, AllocError>
    ensures { IfOk result (λ s. s ≡ headed source.now count tokens.now) }
{
    let [_, name, more @ ..] = tokens else {
        return Ok(None);
    };
    let listed = first_of(&more[more.len().min(1)..], count);
    let (name, imports) = both(spot_of(alloc, source, *name), spots(alloc, source, listed))?;
    Ok(Some(Shape::Theory { name, imports }))
}

/// A header, which is read under the language's own names.
pub(crate) fn header_shape(
    alloc: Global,
    source: &[char],
    tokens: &[Token],
) -> Result<Option<Shape>, AllocError>
    ensures { IfOk result (λ s. s ≡ header_shape source.now tokens.now) }
{
    if !is_header(source, tokens) {
        return Ok(None);
    }
    match import_count(alloc, source)? {
        Some(count) => headed(alloc, source, count, tokens),
        None => Ok(None),
    }
}
