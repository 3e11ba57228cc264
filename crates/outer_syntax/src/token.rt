//! A token and its place.

ghost use Rattle.std.specs.Prelude.{◌≡◌};
ghost use Rattle.text_words.specs.Pieces.{text_between};

use crate::kind::Kind;
use pide_base::Range;

/// A token: its kind, and its scalars in the text.
#[derive(Clone, Copy, Debug, PartialEq, Eq)]
pub struct Token {
    pub kind: Kind,
    pub range: Range,
}

/// The scalars of the text in the range, as far as it lies in the text.
pub fn scalars(text: &[char], range: Range) -> &[char]
    ensures { result.now ≡ text_between text.now range.start range.stop }
{
    let rest = &text[range.start.min(text.len())..];
    &rest[..range.stop.saturating_sub(range.start).min(rest.len())]
}
