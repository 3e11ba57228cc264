//! The first message of some bytes.
ghost use Rattle.std.specs.Prelude.{◌≡◌, ℕ, List, ◌++◌, ◌+◌, ◌<◌, ◌≤◌, ◌^◌, IfOk, Some, length, sum, take, drop};
ghost use Rattle.byte_message.specs.Heading.{heading, line_of, after_line};
ghost use Rattle.byte_message.specs.Heading.Heading.{Fit, Unended};
ghost use Rattle.byte_message.specs.Line.{judge};
ghost use Rattle.byte_message.specs.Begun.{BeginsAs};

use crate::lengths::Lengths;
use crate::line::{LONGEST_LINE, judge, newline};
use crate::line_fault::LineFault;
use crate::message::Message;
use crate::part::Chunks;
use std::alloc::{AllocError, Global};

/// What came of it.
#[derive(Drop)]
pub(crate) enum Begun {
    /// A whole message, and how many bytes of the piece it takes.
    Whole { message: Message, used: usize },
    /// A fit line, and fewer bytes than its chunks have.
    Within(Chunks),
    /// A line that hasn't ended.
    Line,
    /// A line that isn't fit.
    Bad(LineFault),
}

/// The sum of the lengths of the chunks.
fn total(lengths: &[usize]) -> usize
    requires { sum lengths.now < 2 ^ 64 }
    ensures { result ≡ sum lengths.now }
{
    lengths.iter().sum()
}

/// The line that begins with `head` and goes on in the piece for so many bytes.
fn line_kept(alloc: Global, head: &[u8], piece: &[u8], used: usize) -> Result<Vec<u8>, AllocError>
    requires { used ≤ length piece.now }
    ensures { IfOk result (λ line. line.items ≡ head.now ++ take used piece.now) }
{
    let mut line = Vec::from_slice(alloc, head)?;
    line.extend_from_slice(&piece[..used])?;
    Ok(line)
}

/// What follows a fit line: the bytes of its chunks, or fewer. Such a line begins with `head`, and
/// with its newline it has `used` bytes of the piece.
fn chunks_after(
    alloc: Global,
    head: &[u8],
    lengths: Lengths,
    piece: &[u8],
    used: usize,
) -> Result<Begun, AllocError>
    requires headed { (body : List ℕ)
        → heading ((head.now ++ take used piece.now) ++ body) ≡ Fit lengths body }
    requires used { (0 < used) × (used ≤ length piece.now) }
    requires small { sum lengths < 2 ^ 30 }
    ensures { IfOk result (BeginsAs head.now piece.now) }
{
    let whole = total(lengths.as_slice());
    let body = &piece[used..];
    if body.len() < whole {
        let line = line_kept(alloc, head, piece, used)?;
        let bytes = Vec::from_slice(alloc, body)?;
        Ok(Begun::Within(Chunks {
            line,
            lengths,
            whole,
            bytes,
        }))
    } else {
        let bytes = Vec::from_slice(alloc, &body[..whole])?;
        let message = Message::new(lengths, bytes);
        Ok(Begun::Whole {
            message,
            used: used + whole,
        })
    }
}

/// Judges the line that begins with `head` and has so many bytes more, up to its newline. It is
/// copied only where it came in two pieces.
fn judged(
    alloc: Global,
    head: &[u8],
    piece: &[u8],
    used: usize,
) -> Result<Result<Lengths, LineFault>, AllocError>
    requires { used ≤ length piece.now }
    ensures { IfOk result (λ verdict. verdict ≡ judge (head.now ++ take used piece.now)) }
{
    if head.is_empty() {
        return Ok(judge(&piece[..used]));
    }
    let line = line_kept(alloc, head, piece, used)?;
    Ok(judge(line.as_slice()))
}

/// Judges the line of these bytes, which end with a newline that is the first.
fn at_newline(alloc: Global, head: &[u8], piece: &[u8], used: usize) -> Result<Begun, AllocError>
    requires head { heading head.now ≡ Unended }
    requires used { used < length piece.now }
    requires line { line_of piece.now ≡ take used piece.now }
    requires after { after_line piece.now ≡ Some (drop (used + 1) piece.now) }
    ensures { IfOk result (BeginsAs head.now piece.now) }
{
    match judged(alloc, head, piece, used)? {
        Err(fault) => Ok(Begun::Bad(fault)),
        Ok(lengths) => chunks_after(alloc, head, lengths, piece, used + 1),
    }
}

/// What came of the message whose line begins with `head`, which hasn't ended, and goes on with
/// the piece. The head isn't looked at again for a newline.
pub(crate) fn begin(alloc: Global, head: &[u8], piece: &[u8]) -> Result<Begun, AllocError>
    requires { heading head.now ≡ Unended }
    ensures { IfOk result (BeginsAs head.now piece.now) }
{
    let room = LONGEST_LINE + 1 - head.len();
    let seen = piece.len().min(room);
    match newline(&piece[..seen]) {
        Some(used) => at_newline(alloc, head, piece, used),
        None if piece.len() < room => Ok(Begun::Line),
        None => Ok(Begun::Bad(LineFault::BadHeader)),
    }
}
