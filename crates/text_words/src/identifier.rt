//! Identifiers: a letter, then letters, digits, `_` and `'`.
ghost use Rattle.std.specs.Prelude.{◌≡◌};
ghost use Rattle.std.specs.List.{list_all, prefix_len};
ghost use Rattle.text_words.specs.Identifier.{is_identifier_part, is_identifier, IsIdentifier};
ghost use Rattle.text_words.specs.Longest.{FindsLongest};

/// Whether an identifier may go on with this scalar.
pub fn is_identifier_part(c: char) -> bool
    ensures { result ≡ is_identifier_part c }
{
    c.is_ascii_alphanumeric() || c == '_' || c == '\''
}

/// How many scalars at the front an identifier may go on with.
fn part_run(text: &[char]) -> usize
    ensures { result ≡ prefix_len is_identifier_part text.now }
{
    let mut n = 0;
    while n < text.len() && is_identifier_part(text[n]) {
        n += 1;
    }
    n
}

/// The length of the longest identifier at the front, in scalars; None where none begins there.
pub fn identifier_front(text: &[char]) -> Option<usize>
    ensures { FindsLongest IsIdentifier text.now result }
{
    match text {
        [first, ..] if first.is_ascii_alphabetic() => Some(part_run(text)),
        _ => None,
    }
}

fn is_part(byte: u8) -> bool
    ensures { result ≡ is_identifier_part byte }
{
    byte.is_ascii_alphanumeric() || byte == b'_' || byte == b'\''
}

fn are_parts(bytes: &[u8]) -> bool
    ensures { result ≡ list_all is_identifier_part bytes.now }
{
    bytes.iter().all(|byte| is_part(*byte))
}

/// Whether the bytes are an identifier.
pub fn is_identifier(bytes: &[u8]) -> bool
    ensures { result ≡ is_identifier bytes.now }
{
    match bytes {
        [first, rest @ ..] => first.is_ascii_alphabetic() && are_parts(rest),
        [] => false,
    }
}
