//! A client's loop over a stored exchange.
use crate::mirror::calls::send;
use crate::mirror::hearing::{Delivery, hear};
use crate::mirror::looks::look;
use crate::mirror::shapes::message_of;
use pide_mirror::Mirror;
use script_lines::{Answer, Call, Fault};
use std::alloc::Global;

/// A turn of the loop, as `turn 1 A 'message' 'reply' 'reply'`: the message is sent, the replies
/// are heard, and it is told how many they are and what is seen then of the node in that version.
pub(crate) fn turn(alloc: Global, mirror: &mut Mirror, call: &Call, out: &mut String) -> Answer {
    let [version, node, message, replies @ ..] = call.words else {
        return Err(Fault::Line);
    };
    exchange(alloc, mirror, *message, replies, out)?;
    out.push_str(": ")?;
    let seen = Call {
        verb: "look",
        words: &[*version, *node],
    };
    look(alloc, mirror, &seen, out)
}

/// The message is sent, the replies are heard, and it is told how many they are.
fn exchange(
    alloc: Global,
    mirror: &mut Mirror,
    message: &str,
    replies: &[&str],
    out: &mut String,
) -> Answer {
    send(mirror, message_of(alloc, message)?)?;
    hear(alloc, mirror, Delivery::WHOLE, replies, out)
}
