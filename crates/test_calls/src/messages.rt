//! Messages, as bytes, and replies to them.
use byte_message::{Frames, Message};
use std::alloc::Global;
use std::test::Fail;

/// A first version with one text: a lemma with its proof.
pub(crate) const UPDATE: &[u8] =
    b"14,1,134\nSession.update1\x05\x06:\x05\x05\x06:\x05A\x05\x06\x05\x05\x06:\x05\x05\
        \x060\x05\x05\x06:\x05\x05\x06:\x05\x05\x060\x060=0\x05theory A begin lemma l: \"\
        P --> P\" by (impI h h) end\x05\x06\x05\x05\x06\x05\x05\x06\x05\x05\x06:\x05\x05\
        \x06:\x05\x05\x06:\x051\x05\x06\x05\x05\x06:\x05\x05\x06\x05\x05\x06\x05\x05\x06\
        \x05\x05\x06\x05\x05\x06\x05\x05\x06\x05";

/// The execution of the proof is cancelled.
pub(crate) const CANCEL: &[u8] = b"14,1\nSession.cancel3";

/// What the update is answered.
pub(crate) const ASSIGNED: &[u8] =
    b"6,1,142\nassign1\x05\x06:\x05\x05\x06:\x05A\x05\x06\x05\x05\x06:\x05\x05\x06:\x05\
        \x05\x06:\x051\x05\x06\x05\x05\x06:\x05\x05\x06:\x051\x05\x06\x05\x05\x06\x05\x05\
        \x06\x05\x05\x06:\x05\x05\x06:\x052\x05\x06\x05\x05\x06:\x05\x05\x06:\x052\x05\x06\
        \x05\x05\x06\x05\x05\x06\x05\x05\x06:\x05\x05\x06:\x053\x05\x06\x05\x05\x06:\x05\
        \x05\x06:\x053\x05\x06\x05\x05\x06\x05\x05\x06\x05\x05\x06:\x05\x05\x06:\x054\x05\
        \x06\x05\x05\x06:\x05\x05\x06:\x054\x05\x06\x05\x05\x06\x05\x05\x06\x05\x05\x06\x05\
        \x05\x06\x05";

/// What is told of the check of the proof.
pub(crate) const PROVED: &[u8] =
    b"6,1,4,75\nreport3fork\x05\x06proved\x06offset=0\x06end_offset=13\x05\x05\x06\x05\
        \x05\x06ref\x06offset=11\x06end_offset=12\x06name=h\x05\x05\x06\x05";

/// What the cancellation is answered.
pub(crate) const CANCELLED: &[u8] = b"9,1\ncancelled3";

/// That the check of the proof was let go.
pub(crate) const LET_GO: &[u8] = b"7,1,4\ndropped3fork";

/// The message of these bytes.
pub(crate) fn message(alloc: Global, bytes: &[u8]) -> Result<Message, Fail> {
    let mut frames = Frames::new(alloc);
    if frames.feed(bytes).is_err() {
        return Err(Fail::new("no message"));
    }
    match frames.next() {
        Some(message) => Ok(message),
        None => Err(Fail::new("no whole message")),
    }
}
