//! What strings and cartouches contain.

ghost use Rattle.std.specs.Prelude.{◌≡◌, ◌<◌, ◌+◌, ◌-◌, ◌^◌, length, take, drop, IfOk, MatchOption, false, true};
ghost use Rattle.outer_syntax.specs.Contents.{begins_code, first_code, first_of, replaced_from, content_of};

use crate::kind::Kind;
use std::alloc::{AllocError, Global};

/// The scalar of a number up to 127 in three decimal digits at the front.
fn code(text: &[char]) -> Option<char>
    ensures { MatchOption result (begins_code text.now ≡ false)
        (λ c. (begins_code text.now ≡ true) × (c ≡ first_code text.now)) }
{
    match text {
        [a, b, c, ..] => {
            if !(a.is_ascii_digit() && b.is_ascii_digit() && c.is_ascii_digit()) {
                return None;
            }
            let number = 100 * (*a as u32 - 48) + 10 * (*b as u32 - 48) + (*c as u32 - 48);
            if number <= 127 {
                Some(char::from(number as u8))
            } else {
                None
            }
        }
        _ => None,
    }
}

/// What a scalar and the text after it begin with: an escape or the scalar, and how many scalars it
/// has.
fn first_of(first: char, text: &[char]) -> (char, usize)
    ensures { result ≡ first_of first text.now }
{
    if first != '\\' {
        return (first, 1);
    }
    if text.starts_with(&['"']) {
        return ('"', 2);
    }
    if text.starts_with(&['\\']) {
        return ('\\', 2);
    }
    match code(text) {
        Some(c) => (c, 4),
        None => (first, 1),
    }
}

/// The inside of a string with its escapes replaced.
fn replaced(alloc: Global, inside: &[char]) -> Result<Vec<char>, AllocError>
    ensures { IfOk result (λ v. v.items ≡ replaced_from 0 inside.now) }
{
    let mut content = Vec::with_capacity(alloc, inside.len())?;
    let mut at = 0;
    while at < inside.len() {
        let (c, size) = first_of(inside[at], &inside[at + 1..]);
        content.push(c)?;
        at += size;
    }
    Ok(content)
}

/// The scalars but the first and the last so many.
fn inside(token: &[char], first: usize, last: usize) -> &[char]
    requires { first + last < 2 ^ 64 }
    ensures { result.now ≡ take (length token.now - (first + last)) (drop first token.now) }
{
    let rest = &token[first.min(token.len())..];
    &rest[..token.len().saturating_sub(first + last)]
}

/// The content of a token of the kind: of a string what it stands for, of a cartouche its inside,
/// of another its scalars.
pub fn content(alloc: Global, kind: Kind, token: &[char]) -> Result<Vec<char>, AllocError>
    ensures { IfOk result (λ v. v.items ≡ content_of kind token.now) }
{
    match kind {
        Kind::String => replaced(alloc, inside(token, 1, 1)),
        Kind::Cartouche => Vec::from_slice(alloc, inside(token, 7, 8)),
        _ => Vec::from_slice(alloc, token),
    }
}
