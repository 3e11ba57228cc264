//! Named symbols at the front of a text.

ghost use Rattle.text_words.specs.Longest.{FindsLongest};
ghost use Rattle.outer_syntax.specs.Names.{IsClosedName, IsMarkedName, IsNamedSymbol};

use text_words::identifier_front;

/// The length of an identifier and the `>` after it.
fn closed_name(text: &[char]) -> Option<usize>
    ensures { FindsLongest IsClosedName text.now result }
{
    match identifier_front(text) {
        Some(n) => {
            if n < text.len() && text[n] == '>' {
                Some(n + 1)
            } else {
                None
            }
        }
        None => None,
    }
}

/// The length of an identifier and the `>` after it, with a `^` before it or without.
fn marked_name(text: &[char]) -> Option<usize>
    ensures { FindsLongest IsMarkedName text.now result }
{
    if text.is_empty() || text[0] != '^' {
        return closed_name(text);
    }
    match closed_name(&text[1..]) {
        Some(n) => Some(n + 1),
        None => None,
    }
}

/// The length of the named symbol at the front, in scalars.
pub fn named_symbol(text: &[char]) -> Option<usize>
    ensures { FindsLongest IsNamedSymbol text.now result }
{
    match text {
        ['\\', '<', marked @ ..] => match marked_name(marked) {
            Some(n) => Some(n + 2),
            None => None,
        },
        _ => None,
    }
}
