//! Blanks at the front of a text.

ghost use Rattle.std.specs.Prelude.{◌≡◌};
ghost use Rattle.std.specs.List.{prefix_len};
ghost use Rattle.text_words.specs.Blanks.{is_blank};

use text_words::is_blank;

/// How many blanks are at the front.
pub fn blank_run(text: &[char]) -> usize
    ensures { result ≡ prefix_len is_blank text.now }
{
    let mut n = 0;
    while n < text.len() && is_blank(text[n]) {
        n += 1;
    }
    n
}
