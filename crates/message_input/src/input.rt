//! An input, taken to its end.
ghost use Rattle.std.specs.Prelude.{◌≡◌, ◌≢◌, ◌+◌, ◌<◌, ◌≤◌, ℕ, List, Option, None, IfOk, IfErr, OnOk, Ok, length, vec_len};
ghost use Rattle.std.specs.Io.KnownBytes.{Consumes};
ghost use Rattle.pide_base.specs.Faults.{Rose};
ghost use Rattle.byte_message.specs.Feeding.{ending_of};
ghost use Rattle.message_input.specs.Answers.{KeepsUp};
ghost use Rattle.message_input.specs.Causes.{HasCause, fault_place};
ghost use Rattle.message_input.specs.Inputs.{AnswersSo, IsAnswered, IsHalted, IsRead};
ghost use Rattle.message_input.specs.Steps.{EndsWith, StepSo};

use crate::answering::{Answering, Halt};
use crate::piece::answer_piece;
use byte_message::{FrameFault, Frames, Truncated};
use pide_base::{Pulled, Source, Status};
use std::alloc::{AllocError, Global};

/// How many bytes are pulled at most at once.
const PIECE: usize = 65_536;

/// What came of a pull.
#[derive(Clone, Copy, Debug, PartialEq, Eq)]
pub(crate) enum Step {
    /// So many bytes were taken, and what they make whole is answered.
    Taken(usize),
    /// The input ends so.
    Ends(Status),
}

/// A buffer of so many bytes.
fn buffer(alloc: Global, len: usize) -> Result<Vec<u8>, AllocError>
    ensures { IfOk result (λ buffer. vec_len buffer ≡ len) }
{
    vec![in alloc; 0u8; len]
}

/// Where the message at fault begins.
fn place_of(fault: FrameFault) -> u64
    ensures { result ≡ fault_place fault }
{
    match fault {
        FrameFault::BadHeader { at } => at,
        FrameFault::TooMany { at, count: _ } => at,
        FrameFault::TooLong { at, chunk: _ } => at,
    }
}

/// The status of an input that ends here.
fn end_status(frames: &Frames) -> Status
    requires { frames.now.fault ≡ None }
    ensures { EndsWith result (ending_of frames.now) }
{
    match frames.finish() {
        Ok(()) => Status::Done,
        Err(Truncated { at }) => Status::Truncated { at },
    }
}

/// Pulls a piece and answers what it makes whole.
fn take_piece<A: Answering, S: Source>(
    answering: &mut A,
    source: &mut S,
    frames: &mut Frames,
    buffer: &mut [u8],
) -> Result<Step, Halt>
    requires rests { A.rests answering.old }
    requires fine { frames.old.fault ≡ None }
    requires some { 0 < length buffer.old }
    ensures ok { IfOk result (λ step. (first : A) (left : Option (List ℕ)) (taken : List ℕ)
        (limit : ℕ) → Consumes left (S.left source.old) taken
        → length taken + length buffer.old ≤ limit
        → KeepsUp A.goes first taken answering.old frames.old
        → StepSo A.goes limit step left (S.left source.new) taken (length buffer.old) first
        answering.new frames.new) }
    ensures rests { OnOk result (A.rests answering.new) }
    ensures err { IfErr result (λ halt. (first : A) (left : Option (List ℕ)) (taken : List ℕ)
        (limit : ℕ) → Consumes left (S.left source.old) taken
        → length taken + length buffer.old ≤ limit
        → KeepsUp A.goes first taken answering.old frames.old
        → IsHalted A.halts limit halt left (S.left source.new) first answering.new) }
    ensures read_fault { result ≡ Ok (Step.Ends Status.ReadFault)
        → Rose (S.faults source.old) (S.faults source.new) }
    ensures steady { S.faults source.old ≤ S.faults source.new }
{
    match source.pull(buffer) {
        Pulled::Bytes(count) => match answer_piece(answering, frames, &buffer[..count])? {
            None => Ok(Step::Taken(count)),
            Some(fault) => {
                let at = place_of(fault);
                Ok(Step::Ends(Status::BadFrame { at }))
            }
        },
        Pulled::End => Ok(Step::Ends(end_status(frames))),
        Pulled::Failed => Ok(Step::Ends(Status::ReadFault)),
    }
}

/// Takes what the source has, up to a limit of bytes, and answers its messages. Answers how the
/// input ends.
fn take_input<A: Answering, S: Source>(
    alloc: Global,
    answering: &mut A,
    source: &mut S,
    limit: usize,
) -> Result<Status, Halt>
    requires { A.rests answering.old }
    ensures ok { IfOk result (λ how. IsRead A.goes limit how (S.left source.old)
        (S.left source.new) answering.old answering.new) }
    ensures rests { OnOk result (A.rests answering.new) }
    ensures err { IfErr result (λ halt. IsHalted A.halts limit halt (S.left source.old)
        (S.left source.new) answering.old answering.new) }
    ensures read_fault { result ≡ Ok Status.ReadFault
        → Rose (S.faults source.old) (S.faults source.new) }
{
    let mut buffer = buffer(alloc, PIECE)?;
    let mut frames = Frames::new(alloc);
    let mut room = limit;
    'pulling: while room > 0 {
        let most = room.min(PIECE);
        match take_piece(answering, source, &mut frames, &mut buffer[..most])? {
            Step::Taken(count) => room -= count,
            Step::Ends(status) => return Ok(status),
        }
    }
    Ok(Status::LongInput)
}

/// Takes the messages of the source and has each answered as soon as it is whole, before more is
/// pulled, and then has the end taken note of, but where answering halted. At most `limit` bytes
/// are taken.
///
/// The status is WriteFault, NoMemory or BadReply where answering halted for that, NoMemory also
/// where there is none for the bytes of a message; else it tells how the input ended: Done,
/// Truncated, BadFrame, LongInput or ReadFault.
pub fn answer_input<A: Answering, S: Source>(
    alloc: Global,
    answering: &mut A,
    source: &mut S,
    limit: usize,
) -> Status
    requires { A.rests answering.old }
    ensures answered { IsAnswered A.goes A.halts A.ends result (S.left source.old)
        (S.left source.new) answering.old answering.new }
    ensures causes { HasCause limit result (S.left source.old) (S.left source.new) }
    ensures read_fault { result ≡ Status.ReadFault
        → Rose (S.faults source.old) (S.faults source.new) }
{
    match take_input(alloc, answering, source, limit) {
        Ok(status) => {
            answering.end();
            status
        }
        Err(Halt::WriteFault) => Status::WriteFault,
        Err(Halt::NoMemory) => Status::NoMemory,
        Err(Halt::BadReply { len }) => Status::BadReply { len },
    }
}
