//! Bytes as texts, in which `%` and two hexadecimal digits stand for a byte.
ghost use Rattle.std.specs.Prelude.{◌<◌, length, IfSome};

use std::alloc::AllocError;

/// Adds the bytes of a text.
pub(crate) fn add_escaped(bytes: &mut Vec<u8>, text: &[u8]) -> Result<(), AllocError> {
    let mut rest = text;
    while let [first, after @ ..] = rest {
        match escape_at(rest) {
            Some((byte, more)) => {
                bytes.push(byte)?;
                rest = more;
            }
            None => {
                bytes.push(*first)?;
                rest = after;
            }
        }
    }
    Ok(())
}

/// The byte that an escape at the text's beginning stands for, and what stands behind it.
fn escape_at(text: &[u8]) -> Option<(u8, &[u8])>
    ensures { IfSome result (λ found. length found.1.now < length text.now) }
{
    match text {
        [b'%', high, low, more @ ..] => {
            let high = digit_value(*high)?;
            let low = digit_value(*low)?;
            Some((high * 16 + low, more))
        }
        _ => None,
    }
}

/// What a hexadecimal digit, with a great letter, says.
fn digit_value(digit: u8) -> Option<u8>
    ensures { IfSome result (λ value. value < 16) }
{
    match digit {
        b'0'..=b'9' => Some(digit - b'0'),
        b'A'..=b'F' => Some(digit - b'A' + 10),
        _ => None,
    }
}

/// The digit that says so.
fn digit_of(value: u8) -> u8
    requires { value < 16 }
{
    if value < 10 {
        b'0' + value
    } else {
        b'A' + (value - 10)
    }
}

/// Adds a byte as its escape.
fn put_escape(text: &mut String, byte: u8) -> Result<(), AllocError> {
    text.push('%')?;
    text.push(char::from(digit_of(byte / 16)))?;
    text.push(char::from(digit_of(byte % 16)))
}

/// Adds a byte: itself, or its escape.
pub(crate) fn put_byte(text: &mut String, byte: u8, is_plain: bool) -> Result<(), AllocError> {
    if is_plain {
        return text.push(char::from(byte));
    }
    put_escape(text, byte)
}

/// Whether a byte may stand for itself: one of ASCII that is seen, and a space, but not `%`.
pub(crate) fn is_seen(byte: u8) -> bool {
    matches!(byte, b' '..=b'~') && byte != b'%'
}

/// Adds all bytes of a text without structure.
pub(crate) fn put_bytes(text: &mut String, bytes: &[u8]) -> Result<(), AllocError> {
    for byte in bytes {
        put_byte(text, *byte, is_seen(*byte))?;
    }
    Ok(())
}
