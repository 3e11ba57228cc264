//! YXML shown as XML, and bytes shown as scalars.
use std::alloc::{AllocError, Global};

/// The YXML that is shown so: each `<` of a tag, and each blank in one, stands for the bytes before
/// a name or an attribute, and nothing is named at `</`.
pub(crate) fn yxml_of(alloc: Global, shown: &str) -> Result<String, AllocError> {
    let mut text = String::new(alloc);
    let mut in_tag = false;
    let mut in_end = false;
    for scalar in shown.chars() {
        match scalar {
            '<' => {
                in_tag = true;
                text.push_str("\u{5}\u{6}")?;
            }
            '>' if in_tag => {
                in_tag = false;
                in_end = false;
                text.push_str("\u{5}")?;
            }
            '/' if in_tag => in_end = true,
            ' ' if in_tag => text.push_str("\u{6}")?,
            _ if in_end => {}
            _ => text.push(scalar)?,
        }
    }
    Ok(text)
}

/// The bytes whose numbers are those of the scalars; a scalar that is no byte is left out.
pub(crate) fn bytes_of(alloc: Global, shown: &str) -> Result<Vec<u8>, AllocError> {
    let mut bytes = Vec::new(alloc);
    for scalar in shown.chars() {
        if let Ok(byte) = u8::try_from(u32::from(scalar)) {
            bytes.push(byte)?;
        }
    }
    Ok(bytes)
}

/// Adds the scalars whose numbers are those of the bytes.
pub(crate) fn put_bytes(out: &mut String, bytes: &[u8]) -> Result<(), AllocError> {
    for byte in bytes {
        out.push(char::from(*byte))?;
    }
    Ok(())
}

/// So many elements, one inside the other.
pub(crate) fn nested(alloc: Global, depth: usize) -> Result<String, AllocError> {
    let mut text = String::new(alloc);
    for _ in 0..depth {
        text.push_str("\u{5}\u{6}a\u{5}")?;
    }
    for _ in 0..depth {
        text.push_str("\u{5}\u{6}\u{5}")?;
    }
    Ok(text)
}
