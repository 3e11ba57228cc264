//! Messages and replies as texts: a `|` stands between chunks, and YXML is shown as XML, in which
//! `</>` closes an element.
use byte_message::{Frames, Message, append_message};
use script_lines::Fault;
use sqlite_items::Items;
use std::alloc::{AllocError, Global};

/// The message that is shown so.
pub(crate) fn message_of(alloc: Global, shown: &str) -> Result<Message, Fault> {
    let mut bytes = Vec::new(alloc);
    add_message(alloc, &mut bytes, shown)?;
    read_message(alloc, bytes.as_slice())
}

/// The message that the bytes spell.
fn read_message(alloc: Global, bytes: &[u8]) -> Result<Message, Fault> {
    let mut frames = Frames::new(alloc);
    if frames.feed(bytes).is_err() {
        return Err(Fault::NoMemory);
    }
    match frames.next() {
        Some(message) => Ok(message),
        None => Err(Fault::Line),
    }
}

/// Adds the bytes of the message that is shown so.
pub(crate) fn add_message(
    alloc: Global,
    bytes: &mut Vec<u8>,
    shown: &str,
) -> Result<(), AllocError> {
    let chunks = chunks_of(alloc, shown)?;
    append_message(bytes, &chunks)
}

/// The chunks of the message that is shown so.
fn chunks_of(alloc: Global, shown: &str) -> Result<Vec<Items<u8>>, AllocError> {
    let mut chunks = Vec::new(alloc);
    for chunk in shown.split('|') {
        chunks.push(Items::from_vec(chunk_of(alloc, chunk)?))?;
    }
    Ok(chunks)
}

/// The bytes of the chunk that is shown so. A `<` right behind a backslash is a text's own.
fn chunk_of(alloc: Global, shown: &str) -> Result<Vec<u8>, AllocError> {
    let mut bytes = Vec::new(alloc);
    let mut in_tag = false;
    let mut last = 0;
    for byte in shown.as_bytes() {
        let opens = *byte == b'<' && last != b'\\';
        add_shown(&mut bytes, *byte, opens, in_tag)?;
        in_tag = opens || (in_tag && *byte != b'>');
        last = *byte;
    }
    Ok(bytes)
}

/// Adds what a byte stands for, which may open a tag or stand within one.
fn add_shown(bytes: &mut Vec<u8>, byte: u8, opens: bool, in_tag: bool) -> Result<(), AllocError> {
    match (byte, in_tag) {
        _ if opens => bytes.extend_from_slice(b"\x05\x06"),
        (b'>', true) => bytes.extend_from_slice(b"\x05"),
        (b' ', true) => bytes.extend_from_slice(b"\x06"),
        (b'/', true) => Ok(()),
        _ => bytes.extend_from_slice(&[byte]),
    }
}
