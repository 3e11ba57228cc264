//! The lines that tell exchanges.
ghost use Rattle.std.specs.Prelude.{◌<◌, IfSome};

use crate::answers::add_answers;
use crate::bytes::add_escaped;
use crate::exchange::{Exchange, Hold};
use crate::messages::send_message;
use std::alloc::{AllocError, Global};
use std::sync::Wait;
use std::thread::Threads;

/// Takes a line in: what it is answered at once.
pub(crate) fn answer_line<R: Threads + Wait + Sync>(
    rt: &R,
    alloc: Global,
    exchange: &mut Exchange,
    line: &str,
) -> Result<String, AllocError> {
    if line.is_empty() {
        return ended(rt, alloc, exchange);
    }
    if line.starts_with('#') || line.starts_with('*') {
        return format!(in alloc; "{line}\n");
    }
    if take_line(alloc, exchange, line)? {
        return Ok(String::new(alloc));
    }
    format!(in alloc; "wrong line: {line}\n")
}

/// What the exchange is answered, where one is told.
pub(crate) fn answered<R: Threads + Wait + Sync>(
    rt: &R,
    alloc: Global,
    exchange: &Exchange,
) -> Result<String, AllocError> {
    let mut answer = String::new(alloc);
    if exchange.is_told {
        add_answers(rt, alloc, &mut answer, exchange)?;
    }
    Ok(answer)
}

/// The exchange ends, and nothing is told of the next one yet.
fn ended<R: Threads + Wait + Sync>(
    rt: &R,
    alloc: Global,
    exchange: &mut Exchange,
) -> Result<String, AllocError> {
    let answer = answered(rt, alloc, exchange)?;
    drop(std::mem::replace(exchange, Exchange::new(alloc)));
    format!(in alloc; "{answer}\n")
}

/// Takes in a line of an exchange: false where it is none.
fn take_line(alloc: Global, exchange: &mut Exchange, line: &str) -> Result<bool, AllocError> {
    let (name, rest) = named(line);
    match name {
        ">" => send_message(alloc, &mut exchange.sent, rest)?,
        ">>" => add_escaped(&mut exchange.sent, rest.as_bytes())?,
        "words" => exchange.tell_words(rest)?,
        "repeat" => return send_repeated(alloc, &mut exchange.sent, rest),
        "pieces" => return take_pieces(&mut exchange.pieces, rest),
        _ => return Ok(take_count(exchange, name, rest)),
    }
    Ok(true)
}

/// The name of a line, and what stands behind it and a space.
fn named(line: &str) -> (&str, &str) {
    match line.split_once(' ') {
        Some(parts) => parts,
        None => (line, ""),
    }
}

/// Takes in a line with a number, or one that asks for a count: false where it is none.
fn take_count(exchange: &mut Exchange, name: &str, rest: &str) -> bool {
    match (name, number(rest)) {
        ("pull", Some(count)) => exchange.failing_pull = count as u64,
        ("push", Some(count)) => exchange.failing_push = count as u64,
        ("room", Some(count)) => exchange.room = count,
        ("limit", Some(count)) => exchange.limit = Some(count),
        ("hold", Some(worker)) => return hold_worker(exchange, worker),
        ("hold", None) => return take_hold(exchange, rest),
        ("entries", _) => exchange.counts_entries = true,
        ("history", _) => exchange.tells_history = true,
        ("faults", _) => exchange.counts_faults = true,
        ("length", _) => exchange.tells_length = true,
        _ => return false,
    }
    true
}

/// Takes in which worker is held: false where there can be none of that number.
fn hold_worker(exchange: &mut Exchange, worker: usize) -> bool {
    let Ok(worker) = u32::try_from(worker) else {
        return false;
    };
    exchange.hold = Hold::AtClaim(worker);
    true
}

/// Takes in who holds workers up: false where nobody is named.
fn take_hold(exchange: &mut Exchange, name: &str) -> bool {
    match name {
        "asked" => exchange.hold = Hold::WhenAsked,
        "push" => exchange.hold = Hold::ForPush,
        "removed" => exchange.hold = Hold::UntilRemoved,
        _ => return false,
    }
    true
}

/// The number that is written so.
fn number(text: &str) -> Option<usize> {
    text.parse::<usize>().ok()
}

/// A number above 0 that is written so.
fn piece_of(text: &str) -> Option<usize>
    ensures { IfSome result (λ piece. 0 < piece) }
{
    match number(text) {
        Some(piece) if piece > 0 => Some(piece),
        _ => None,
    }
}

/// Takes in how many bytes a pull gives at most: false where one is no number above 0.
fn take_pieces(pieces: &mut Vec<usize>, text: &str) -> Result<bool, AllocError> {
    for piece in text.split(' ') {
        match piece_of(piece) {
            Some(piece) => pieces.push(piece)?,
            None => return Ok(false),
        }
    }
    Ok(true)
}

/// Sends bytes so many times: false where there is no number before them.
fn send_repeated(alloc: Global, sent: &mut Vec<u8>, text: &str) -> Result<bool, AllocError> {
    let (count, shown) = named(text);
    let Some(count) = number(count) else {
        return Ok(false);
    };
    let mut bytes = Vec::new(alloc);
    add_escaped(&mut bytes, shown.as_bytes())?;
    add_repeated(sent, bytes.as_slice(), count)?;
    Ok(true)
}

fn add_repeated(sent: &mut Vec<u8>, bytes: &[u8], count: usize) -> Result<(), AllocError> {
    for _ in 0..count {
        sent.extend_from_slice(bytes)?;
    }
    Ok(())
}
