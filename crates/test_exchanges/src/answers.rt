//! What an exchange is answered.
use crate::bytes::put_bytes;
use crate::exchange::Exchange;
use crate::messages::spelling_of;
use crate::replies::{Order, Replies};
use crate::runs::{Ran, run};
use byte_message::{FeedError, Frames};
use pide_base::Status;
use std::alloc::{AllocError, Global};
use std::sync::Wait;
use std::thread::Threads;

/// The pieces of an exchange that tells none.
const PIECES: &[usize] = &[100];

/// Adds the answer of the first run, and each that is another one.
pub(crate) fn add_answers<R: Threads + Wait + Sync>(
    rt: &R,
    alloc: Global,
    answer: &mut String,
    exchange: &Exchange,
) -> Result<(), AllocError> {
    let told = exchange.pieces.as_slice();
    let pieces = if told.is_empty() { PIECES } else { told };
    let Some((first, others)) = pieces.split_first() else {
        return Ok(());
    };
    let first = answer_of(rt, alloc, exchange, *first)?;
    answer.push_str(first.as_str())?;
    for piece in others {
        add_other(rt, alloc, answer, exchange, *piece, first.as_str())?;
    }
    Ok(())
}

/// Adds the answer of a run with this piece, if it is another one than the first.
fn add_other<R: Threads + Wait + Sync>(
    rt: &R,
    alloc: Global,
    answer: &mut String,
    exchange: &Exchange,
    piece: usize,
    first: &str,
) -> Result<(), AllocError> {
    let other = answer_of(rt, alloc, exchange, piece)?;
    if other.as_str() == first {
        return Ok(());
    }
    push_line(alloc, answer, "pieces", piece as u64)?;
    answer.push_str(other.as_str())
}

/// The answer of the run with this piece.
fn answer_of<R: Threads + Wait + Sync>(
    rt: &R,
    alloc: Global,
    exchange: &Exchange,
    piece: usize,
) -> Result<String, AllocError> {
    let mut answer = String::new(alloc);
    add_answer(rt, alloc, &mut answer, exchange, piece)?;
    Ok(answer)
}

/// Adds the answer of the run with this piece.
fn add_answer<R: Threads + Wait + Sync>(
    rt: &R,
    alloc: Global,
    answer: &mut String,
    exchange: &Exchange,
    piece: usize,
) -> Result<(), AllocError> {
    if exchange.limit.is_some() && !exchange.serves() {
        return answer.push_str("a limit goes with the word serve alone\n");
    }
    let ran = run(rt, alloc, exchange, piece)?;
    let added = add_ran(alloc, answer, exchange, &ran);
    drop(ran);
    added
}

/// Adds what a run comes to.
fn add_ran(
    alloc: Global,
    answer: &mut String,
    exchange: &Exchange,
    ran: &Ran,
) -> Result<(), AllocError> {
    add_status(alloc, answer, ran.status)?;
    add_hold(answer, ran.let_go)?;
    add_written(alloc, answer, exchange, ran)?;
    add_counts(alloc, answer, exchange, ran)
}

/// Adds a line with a number.
fn push_line(alloc: Global, text: &mut String, name: &str, number: u64) -> Result<(), AllocError> {
    let line = format!(in alloc; "{name} {number}\n")?;
    text.push_str(line.as_str())
}

/// The name of a status, and the number that it tells.
fn parts_of(status: Status) -> (&'static str, Option<u64>) {
    match status {
        Status::Done => ("Done", None),
        Status::Usage => ("Usage", None),
        Status::ReadFault => ("ReadFault", None),
        Status::WriteFault => ("WriteFault", None),
        Status::BadFrame { at } => ("BadFrame", Some(at)),
        Status::Truncated { at } => ("Truncated", Some(at)),
        Status::LongInput => ("LongInput", None),
        Status::NoMemory => ("NoMemory", None),
        Status::BadText { at } => ("BadText", Some(at)),
        Status::BadReply { len } => ("BadReply", Some(len)),
    }
}

fn add_status(alloc: Global, answer: &mut String, status: Status) -> Result<(), AllocError> {
    let exit = status.exit_number();
    let (name, number) = parts_of(status);
    let line = match number {
        Some(number) => format!(in alloc; "status {exit} {name} {number}\n")?,
        None => format!(in alloc; "status {exit} {name}\n")?,
    };
    answer.push_str(line.as_str())
}

/// Adds how the hold of a worker ended, where one was to be held.
fn add_hold(answer: &mut String, let_go: Option<&'static str>) -> Result<(), AllocError> {
    let Some(name) = let_go else {
        return Ok(());
    };
    answer.push_str("held ")?;
    answer.push_str(name)?;
    answer.push('\n')
}

/// Adds what was written: its length, lines, or messages.
fn add_written(
    alloc: Global,
    answer: &mut String,
    exchange: &Exchange,
    ran: &Ran,
) -> Result<(), AllocError> {
    let written = ran.sink.contents();
    if exchange.tells_length {
        return push_line(alloc, answer, "length", written.len() as u64);
    }
    if exchange.writes_lines() {
        return add_lines(answer, written);
    }
    let mut frames = Frames::new(alloc);
    if let Err(FeedError::NoMemory) = frames.feed(written) {
        return Err(AllocError);
    }
    let mut replies = Replies::new(alloc, order_of(exchange, ran.status));
    let rest = take_replies(alloc, &mut replies, &mut frames, written)?;
    replies.put(answer)?;
    add_rest(answer, rest)
}

/// In which order the replies of a run are told that ended so.
fn order_of(exchange: &Exchange, status: Status) -> Order {
    if exchange.has_workers() {
        return Order::beside_workers(status);
    }
    Order::AsWritten
}

/// Takes the messages that were written, and answers the bytes behind them.
fn take_replies<'a>(
    alloc: Global,
    replies: &mut Replies,
    frames: &mut Frames,
    written: &'a [u8],
) -> Result<&'a [u8], AllocError> {
    let mut rest = written;
    for _ in 0..written.len() {
        let Some(message) = frames.next() else {
            break;
        };
        let spelling = spelling_of(alloc, &message)?;
        let Some(after) = rest.strip_prefix(spelling.as_slice()) else {
            break;
        };
        replies.add(alloc, &message)?;
        rest = after;
    }
    Ok(rest)
}

/// Adds bytes that are no whole message or line, where there are some.
fn add_rest(answer: &mut String, rest: &[u8]) -> Result<(), AllocError> {
    if rest.is_empty() {
        return Ok(());
    }
    answer.push_str("<< ")?;
    put_bytes(answer, rest)?;
    answer.push('\n')
}

/// Adds the lines that were written.
fn add_lines(answer: &mut String, written: &[u8]) -> Result<(), AllocError> {
    let mut rest = written;
    while let Some(end) = rest.iter().position(|byte| *byte == b'\n') {
        add_line(answer, &rest[..end])?;
        rest = &rest[end + 1..];
    }
    add_rest(answer, rest)
}

fn add_line(answer: &mut String, line: &[u8]) -> Result<(), AllocError> {
    answer.push_str("= ")?;
    put_bytes(answer, line)?;
    answer.push('\n')
}

/// Adds the counts that are asked for.
fn add_counts(
    alloc: Global,
    answer: &mut String,
    exchange: &Exchange,
    ran: &Ran,
) -> Result<(), AllocError> {
    if exchange.counts_entries {
        push_line(alloc, answer, "entries", ran.history.entries)?;
    }
    if exchange.tells_history {
        answer.push_str(ran.history.lines.as_str())?;
    }
    if exchange.counts_faults {
        push_line(alloc, answer, "pulls", ran.pulls)?;
        push_line(alloc, answer, "pushes", ran.pushes)?;
    }
    Ok(())
}
