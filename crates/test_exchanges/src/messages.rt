//! Messages as texts: a `|` stands between chunks, and YXML is shown as XML, in which `</>` closes
//! an element.
ghost use Rattle.std.specs.Prelude.{◌<◌, length, IfSome};

use crate::bytes::{add_escaped, is_seen, put_byte};
use byte_message::{Message, append_message};
use sqlite_items::Items;
use std::alloc::{AllocError, Global};

/// Sends the message that is shown so.
pub(crate) fn send_message(
    alloc: Global,
    sent: &mut Vec<u8>,
    shown: &str,
) -> Result<(), AllocError> {
    let chunks = chunks_of(alloc, shown)?;
    append_message(sent, &chunks)
}

/// The chunks of the message that is shown so.
fn chunks_of(alloc: Global, shown: &str) -> Result<Vec<Items<u8>>, AllocError> {
    let mut chunks = Vec::new(alloc);
    for chunk in shown.split('|') {
        chunks.push(Items::from_vec(chunk_of(alloc, chunk)?))?;
    }
    Ok(chunks)
}

/// The bytes of the chunk that is shown so.
fn chunk_of(alloc: Global, shown: &str) -> Result<Vec<u8>, AllocError> {
    let marked = marked(alloc, shown)?;
    let mut bytes = Vec::new(alloc);
    add_escaped(&mut bytes, marked.as_slice())?;
    Ok(bytes)
}

/// The bytes of the chunk that is shown so, with its escapes. A `<` right behind a backslash is a
/// text's own.
fn marked(alloc: Global, shown: &str) -> Result<Vec<u8>, AllocError> {
    let mut bytes = Vec::new(alloc);
    let mut in_tag = false;
    let mut last = 0;
    for byte in shown.as_bytes() {
        match (*byte, in_tag) {
            (b'<', _) if last != b'\\' => {
                in_tag = true;
                bytes.extend_from_slice(b"\x05\x06")?;
            }
            (b'>', true) => {
                in_tag = false;
                bytes.push(5)?;
            }
            (b' ', true) => bytes.push(6)?,
            (b'/', true) => {}
            _ => bytes.push(*byte)?,
        }
        last = *byte;
    }
    Ok(bytes)
}

/// The bytes of a message.
pub(crate) fn spelling_of(alloc: Global, message: &Message) -> Result<Vec<u8>, AllocError> {
    let chunks = copied_chunks(alloc, message)?;
    let mut bytes = Vec::new(alloc);
    append_message(&mut bytes, &chunks)?;
    Ok(bytes)
}

fn copied_chunks(alloc: Global, message: &Message) -> Result<Vec<Items<u8>>, AllocError> {
    let mut chunks = Vec::new(alloc);
    for number in 0..message.count() {
        let bytes = Vec::from_slice(alloc, message.chunk(number))?;
        chunks.push(Items::from_vec(bytes))?;
    }
    Ok(chunks)
}

/// Adds what the message is shown as.
pub(crate) fn show_message(text: &mut String, message: &Message) -> Result<(), AllocError> {
    for number in 0..message.count() {
        if number > 0 {
            text.push('|')?;
        }
        show_chunk(text, message.chunk(number))?;
    }
    Ok(())
}

/// Adds what a chunk is shown as.
fn show_chunk(text: &mut String, chunk: &[u8]) -> Result<(), AllocError> {
    let mut rest = chunk;
    let mut last = 0;
    while let [first, after @ ..] = rest {
        match tag_at(rest) {
            Some((tag, more)) => {
                show_tag(text, tag)?;
                rest = more;
            }
            None => {
                put_byte(text, *first, is_plain(*first, last, after))?;
                rest = after;
            }
        }
        last = *first;
    }
    Ok(())
}

/// What stands inside of a tag at the beginning of the bytes, and what stands behind it.
fn tag_at(bytes: &[u8]) -> Option<(&[u8], &[u8])>
    ensures { IfSome result (λ found. length found.1.now < length bytes.now) }
{
    match bytes {
        [5, 6, inside @ ..] => {
            let end = inside.iter().position(|byte| *byte == 5)?;
            Some((&inside[..end], &inside[end + 1..]))
        }
        _ => None,
    }
}

fn show_tag(text: &mut String, tag: &[u8]) -> Result<(), AllocError> {
    if tag.is_empty() {
        return text.push_str("</>");
    }
    text.push('<')?;
    for byte in tag {
        match *byte {
            6 => text.push(' ')?,
            byte => put_byte(text, byte, is_plain_in_tag(byte))?,
        }
    }
    text.push('>')
}

fn is_plain_in_tag(byte: u8) -> bool {
    is_seen(byte) && !matches!(byte, b' ' | b'<' | b'>' | b'/' | b'|')
}

/// Whether a byte of a text is shown as itself, behind this one and before these.
fn is_plain(byte: u8, last: u8, after: &[u8]) -> bool {
    match byte {
        b'|' => false,
        b'<' => last == b'\\',
        b'\\' => !matches!(after, [5, ..]),
        _ => is_seen(byte),
    }
}
