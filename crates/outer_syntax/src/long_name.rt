//! Identifiers, and identifiers joined by dots.

ghost use Rattle.std.specs.Prelude.{MatchOption};
ghost use Rattle.text_words.specs.Identifier.{IsIdentifier};
ghost use Rattle.text_words.specs.Longest.{FindsLongest, HasNoFront};
ghost use Rattle.outer_syntax.specs.Forms.{IsDotted};
ghost use Rattle.outer_syntax.specs.Rows.{IsFirstRow};

use crate::row::Row;
use text_words::identifier_front;

/// How many scalars a dot and the identifier after it have, at the front.
fn dotted_name(text: &[char]) -> Option<usize>
    ensures { FindsLongest IsDotted text.now result }
{
    if text.is_empty() || text[0] != '.' {
        return None;
    }
    match identifier_front(&text[1..]) {
        Some(n) => Some(n + 1),
        None => None,
    }
}

/// The row that fits a text which begins with an identifier, and how many scalars its longest match
/// has.
pub fn word(text: &[char]) -> Option<(Row, usize)>
    ensures { MatchOption result (HasNoFront IsIdentifier text.now)
        (λ r. IsFirstRow text.now r.0 r.1) }
{
    let Some(first) = identifier_front(text) else {
        return None;
    };
    let mut at = first;
    while let Some(n) = dotted_name(&text[at..]) {
        at += n;
    }
    if at == first {
        Some((Row::Word, at))
    } else {
        Some((Row::LongIdent, at))
    }
}
