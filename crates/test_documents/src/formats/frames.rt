//! Byte messages of streams that come in pieces (`byte_message`).
use crate::formats::shown::{bytes_of, put_bytes};
use byte_message::{FeedError, Frames, Message, Truncated};
use script_lines::{Answer, Call, Fault};
use std::alloc::{AllocError, Global};

/// Answers what becomes of a stream: `feed` bytes in one piece, `feed-often` so many times the same
/// ones in one piece, `each` byte in a piece of its own, `each-often` so many times the same byte
/// so; `next` takes a message, `finish` ends the stream.
pub(crate) fn answer(
    alloc: Global,
    out: &mut String,
    frames: &mut Frames,
    call: &Call<'_>,
) -> Answer {
    match call.verb {
        "feed" => fed(out, frames, bytes_of(alloc, call.word(0)?)),
        "feed-often" => fed(out, frames, often(alloc, call.place(0)?, call.word(1)?)),
        "each" => each_fed(out, frames, bytes_of(alloc, call.word(0)?)),
        "each-often" => each_fed(out, frames, often(alloc, call.place(0)?, call.word(1)?)),
        "next" => Ok(put_next(out, frames)?),
        "finish" => Ok(put_finish(out, frames)?),
        _ => Err(Fault::Line),
    }
}

/// So many times the bytes.
fn often(alloc: Global, times: usize, text: &str) -> Result<Vec<u8>, AllocError> {
    let mut bytes = Vec::new(alloc);
    for _ in 0..times {
        push_all(&mut bytes, text.as_bytes())?;
    }
    Ok(bytes)
}

/// Adds the bytes one by one, so that the memory for them grows by doubling.
fn push_all(bytes: &mut Vec<u8>, more: &[u8]) -> Result<(), AllocError> {
    for byte in more {
        bytes.push(*byte)?;
    }
    Ok(())
}

/// Answers how many messages a piece makes, or the fault.
fn fed(out: &mut String, frames: &mut Frames, piece: Result<Vec<u8>, AllocError>) -> Answer {
    match frames.feed(piece?.as_slice()) {
        Ok(made) => Ok(write!(out, "{made}")?),
        Err(FeedError::Frame(fault)) => Ok(write!(out, "{fault:?}")?),
        Err(FeedError::NoMemory) => Err(Fault::NoMemory),
    }
}

/// Answers how many messages are made where each byte is a piece of its own.
fn each_fed(out: &mut String, frames: &mut Frames, bytes: Result<Vec<u8>, AllocError>) -> Answer {
    let bytes = bytes?;
    let made = made_of(frames, bytes.as_slice())?;
    Ok(write!(out, "{made}")?)
}

/// How many messages the bytes make, one by one.
fn made_of(frames: &mut Frames, bytes: &[u8]) -> Result<usize, Fault> {
    let mut count = 0usize;
    for byte in bytes {
        match frames.feed(&[*byte]) {
            Ok(made) => count = count.saturating_add(made),
            Err(FeedError::Frame(_)) => return Err(Fault::Line),
            Err(FeedError::NoMemory) => return Err(Fault::NoMemory),
        }
    }
    Ok(count)
}

/// Adds the number of the next message's chunks, and each behind a `|`; or `none`.
fn put_next(out: &mut String, frames: &mut Frames) -> Result<(), AllocError> {
    match frames.next() {
        Some(message) => {
            let put = put_chunks(out, &message);
            drop(message);
            put
        }
        None => out.push_str("none"),
    }
}

/// Adds the number of chunks, and each behind a `|`.
fn put_chunks(out: &mut String, message: &Message) -> Result<(), AllocError> {
    let count = message.count();
    write!(out, "{count}")?;
    for number in 0..count {
        out.push('|')?;
        put_bytes(out, message.chunk(number))?;
    }
    Ok(())
}

/// Adds whether the stream may end here, or the place where the message begins within which it
/// would.
fn put_finish(out: &mut String, frames: &Frames) -> Result<(), AllocError> {
    match frames.finish() {
        Ok(()) => out.push_str("ends"),
        Err(Truncated { at }) => write!(out, "within the message at {at}"),
    }
}
