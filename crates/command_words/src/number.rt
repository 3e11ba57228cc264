//! Numbers as they are printed.
ghost use Rattle.std.specs.Prelude.{◌≡◌};
ghost use Rattle.command_words.specs.Asked.{has_needless, number_of};

/// Whether a plus stands first, or a zero before other digits.
fn has_needless(text: &[u8]) -> bool
    ensures { result ≡ has_needless text.now }
{
    match text {
        [b'+', ..] => true,
        [b'0', _, ..] => true,
        _ => false,
    }
}

/// The number that is printed so, if it has 32 bits.
pub(crate) fn number(text: &str) -> Option<u32>
    ensures { result ≡ number_of text.now }
{
    if has_needless(text.as_bytes()) {
        return None;
    }
    text.parse().ok()
}
