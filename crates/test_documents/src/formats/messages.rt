//! What editors ask, and the first reason for which a message is refused (`pide_messages`).
use crate::formats::asked_messages::put_content;
use crate::formats::shown::{bytes_of, put_bytes, yxml_of};
use byte_message::{Frames, Message, append_message, write_message};
use message_values::{EditorMessage, Mode, Refusal};
use pide_messages::{ReadError, read};
use script_lines::{Answer, Call, Fault, say};
use sqlite_items::Items;
use std::alloc::{AllocError, Global};

/// Answers of a message of the chunks, each with its YXML shown as XML: whether it is read in a
/// mode, or its first fault, of `text` or of `bytes`; what it asks, its `content`; how one is written,
/// `spell`; or the `number` of a refusal.
pub(crate) fn answer(alloc: Global, out: &mut String, call: &Call<'_>) -> Answer {
    match call.verb {
        "text" => judged(
            alloc,
            out,
            call.word(0)?,
            message_of(alloc, call.words, false),
        ),
        "bytes" => judged(
            alloc,
            out,
            call.word(0)?,
            message_of(alloc, call.words, true),
        ),
        "content" => content(
            alloc,
            out,
            call.word(0)?,
            message_of(alloc, call.words, false),
        ),
        "spell" => Ok(put_spelled(alloc, out)?),
        "number" => number(out, call.word(0)?),
        _ => Err(Fault::Line),
    }
}

/// The mode of this name.
fn mode_of(word: &str) -> Result<Mode, Fault> {
    match word {
        "serve" => Ok(Mode::Serve),
        "replay" => Ok(Mode::Replay),
        "build" => Ok(Mode::Build),
        _ => Err(Fault::Line),
    }
}

/// The bytes of a chunk.
fn chunk_of(alloc: Global, shown: &str, as_bytes: bool) -> Result<Items<u8>, AllocError> {
    let text = yxml_of(alloc, shown)?;
    if as_bytes {
        return Ok(Items::from_vec(bytes_of(alloc, text.as_str())?));
    }
    Items::from_slice(alloc, text.as_bytes())
}

/// Adds a chunk.
fn push(
    chunks: &mut Items<Items<u8>>,
    chunk: Result<Items<u8>, AllocError>,
) -> Result<(), AllocError> {
    chunks.push(chunk?)
}

/// The bytes of the chunks that are shown so.
fn chunks_of(
    alloc: Global,
    shown: &[&str],
    as_bytes: bool,
) -> Result<Items<Items<u8>>, AllocError> {
    let mut chunks = Items::new(alloc);
    for chunk in shown {
        push(&mut chunks, chunk_of(alloc, chunk, as_bytes))?;
    }
    Ok(chunks)
}

/// The message of the chunks behind the first word.
fn message_of(alloc: Global, words: &[&str], as_bytes: bool) -> Result<Message, Fault> {
    let [_mode, shown @ ..] = words else {
        return Err(Fault::Line);
    };
    let stream = stream_of(alloc, chunks_of(alloc, shown, as_bytes))?;
    first_message(alloc, stream.as_slice())
}

/// The stream of one message.
fn stream_of(
    alloc: Global,
    chunks: Result<Items<Items<u8>>, AllocError>,
) -> Result<Vec<u8>, AllocError> {
    let chunks = chunks?;
    let mut stream = Vec::new(alloc);
    let put = append_message(&mut stream, chunks.as_slice());
    drop(chunks);
    put?;
    Ok(stream)
}

/// The message that a stream begins with.
pub(crate) fn first_message(alloc: Global, bytes: &[u8]) -> Result<Message, Fault> {
    let mut frames = Frames::new(alloc);
    let is_fed = frames.feed(bytes).is_ok();
    let message = frames.next();
    drop(frames);
    if is_fed {
        return message.ok_or(Fault::Line);
    }
    drop(message);
    Err(Fault::Line)
}

/// Answers `read`, or why the message is refused.
fn judged(alloc: Global, out: &mut String, mode: &str, message: Result<Message, Fault>) -> Answer {
    match asked(alloc, mode, message)? {
        Ok(message) => {
            drop(message);
            say(out, "read")
        }
        Err(ReadError::Refused(reason)) => Ok(write!(out, "{reason:?}")?),
        Err(ReadError::NoMemory) => Err(Fault::NoMemory),
    }
}

/// What the message asks in a mode.
fn asked(
    alloc: Global,
    mode: &str,
    message: Result<Message, Fault>,
) -> Result<Result<EditorMessage, ReadError>, Fault> {
    let message = message?;
    let asked = asked_in(alloc, mode_of(mode), &message);
    drop(message);
    asked
}

fn asked_in(
    alloc: Global,
    mode: Result<Mode, Fault>,
    message: &Message,
) -> Result<Result<EditorMessage, ReadError>, Fault> {
    Ok(read(alloc, message, mode?))
}

/// Answers what the message asks.
fn content(alloc: Global, out: &mut String, mode: &str, message: Result<Message, Fault>) -> Answer {
    match asked(alloc, mode, message)? {
        Ok(message) => {
            let put = put_content(out, &message);
            drop(message);
            Ok(put?)
        }
        Err(_) => Err(Fault::Line),
    }
}

/// Adds the bytes of a message that says that the version 1 is settled, and how many there are where
/// it is added once more.
fn put_spelled(alloc: Global, out: &mut String) -> Result<(), AllocError> {
    let mut chunks = Vec::new(alloc);
    chunks.push(Items::from_slice(alloc, b"settled")?)?;
    chunks.push(Items::from_slice(alloc, b"1")?)?;
    chunks.push(Items::new(alloc))?;
    let mut stream = write_message(alloc, chunks.as_slice())?;
    put_bytes(out, stream.as_slice())?;
    append_message(&mut stream, chunks.as_slice())?;
    let count = stream.len();
    write!(out, ", twice {count} bytes")
}

/// Answers the number of a refusal.
fn number(out: &mut String, word: &str) -> Answer {
    let refusal = match word {
        "UnknownFunction" => Refusal::UnknownFunction,
        "BadData" => Refusal::BadData,
        "UnknownBlob" => Refusal::UnknownBlob,
        _ => return Err(Fault::Line),
    };
    let number = refusal.number();
    Ok(write!(out, "{number}")?)
}
