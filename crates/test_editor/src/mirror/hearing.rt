//! Replies that are heard.
use crate::mirror::shapes::add_message;
use crate::mirror::telling::put_heard;
use pide_mirror::{Mirror, MirrorError};
use script_lines::{Answer, Call, Fault, place};
use std::alloc::{AllocError, Global};

/// How replies come: with what before each header, and in pieces of at most so many bytes.
#[derive(Clone, Copy)]
pub(crate) struct Delivery {
    before: &'static [u8],
    piece: usize,
}

impl Delivery {
    /// All at once.
    pub(crate) const WHOLE: Delivery = Delivery {
        before: b"",
        piece: usize::MAX,
    };

    /// All at once, with a zero before each header.
    const PADDED: Delivery = Delivery {
        before: b"0",
        piece: usize::MAX,
    };
}

/// Has the mirror hear what a call tells: `heard` replies that come at once, `padded` the same with
/// a zero before each header, `cut 3` the same in pieces of so many bytes, `bytes` a piece as it is.
pub(crate) fn answer_heard(
    alloc: Global,
    mirror: &mut Mirror,
    call: Call,
    out: &mut String,
) -> Answer {
    match call.verb {
        "heard" => hear(alloc, mirror, Delivery::WHOLE, call.words, out),
        "padded" => hear(alloc, mirror, Delivery::PADDED, call.words, out),
        "cut" => hear_cut(alloc, mirror, call, out),
        "bytes" => hear_bytes(mirror, call, out),
        _ => Err(Fault::Line),
    }
}

/// Has the mirror hear these replies, and tells how many they are.
pub(crate) fn hear(
    alloc: Global,
    mirror: &mut Mirror,
    delivery: Delivery,
    shown: &[&str],
    out: &mut String,
) -> Answer {
    let bytes = bytes_of(alloc, delivery, shown)?;
    let heard = feed_pieces(mirror, bytes.as_slice(), delivery.piece);
    drop(bytes);
    put_heard(out, heard)
}

/// Has the mirror hear replies in pieces of so many bytes, at least one.
fn hear_cut(alloc: Global, mirror: &mut Mirror, call: Call, out: &mut String) -> Answer {
    let inner = call.inner()?;
    let delivery = Delivery {
        before: b"",
        piece: place(inner.verb)?,
    };
    hear(alloc, mirror, delivery, inner.words, out)
}

/// Has the mirror hear a piece.
fn hear_bytes(mirror: &mut Mirror, call: Call, out: &mut String) -> Answer {
    let piece = call.word(0)?;
    put_heard(out, mirror.feed(piece.as_bytes()))
}

/// The bytes of replies that are shown so.
fn bytes_of(alloc: Global, delivery: Delivery, shown: &[&str]) -> Result<Vec<u8>, AllocError> {
    let mut bytes = Vec::new(alloc);
    for reply in shown {
        bytes.extend_from_slice(delivery.before)?;
        add_message(alloc, &mut bytes, *reply)?;
    }
    Ok(bytes)
}

/// How many replies the pieces make whole, or the fault.
fn feed_pieces(mirror: &mut Mirror, bytes: &[u8], piece: usize) -> Result<usize, MirrorError> {
    let mut count: usize = 0;
    let mut rest = bytes;
    for _ in 0..bytes.len() {
        let (first, others) = rest.split_at_checked(piece).unwrap_or((rest, &[]));
        count = count.saturating_add(mirror.feed(first)?);
        rest = others;
    }
    Ok(count)
}
