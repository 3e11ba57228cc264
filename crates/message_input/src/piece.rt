//! A piece of the input: the messages that it makes whole are answered at once.
ghost use Rattle.std.specs.Prelude.{◌≡◌, ◌++◌, ℕ, List, [], Some, None, OnOk, IfOk, IfErr, OnErr, Ok};
ghost use Rattle.byte_message.specs.Feeding.{Continues};
ghost use Rattle.byte_message.specs.Stream.Ending.{Bad};
ghost use Rattle.message_input.specs.Answers.{AnswersAll, AnswersSome, HaltsAmong, KeepsUp};

use crate::answering::{Answering, Halt};
use byte_message::{FeedError, FrameFault, Frames};
use std::alloc::AllocError;

/// Answers the messages that are whole, in order.
fn answer_whole<A: Answering>(answering: &mut A, frames: &mut Frames) -> Result<(), Halt>
    requires { A.rests answering.old }
    ensures ok { OnOk result (A.goes answering.old frames.old.waiting answering.new) }
    ensures none { OnOk result (frames.new ≡ record frames.old { waiting = [] }) }
    ensures err { IfErr result (λ halt. HaltsAmong A.halts answering.old frames.old.waiting halt
        answering.new) }
{
    'messages: while let Some(message) = frames.next() {
        answering.answer(message)?;
    }
    Ok(())
}

/// Takes a piece, and answers the fault of the input so far.
fn feed(frames: &mut Frames, piece: &[u8]) -> Result<Option<FrameFault>, AllocError>
    ensures ok { IfOk result (λ fault. Continues frames.old piece.now frames.new
        × (frames.new.fault ≡ fault)) }
    ensures err { OnErr result (frames.new ≡ frames.old) }
{
    match frames.feed(piece) {
        Ok(_) => Ok(None),
        Err(FeedError::Frame(fault)) => Ok(Some(fault)),
        Err(FeedError::NoMemory) => Err(AllocError),
    }
}

/// Takes a piece and answers what it makes whole. Answers the fault of a line, if there is one.
pub(crate) fn answer_piece<A: Answering>(
    answering: &mut A,
    frames: &mut Frames,
    piece: &[u8],
) -> Result<Option<FrameFault>, Halt>
    requires { A.rests answering.old }
    ensures on { result ≡ Ok None → (first : A) (taken : List ℕ)
        → KeepsUp A.goes first taken answering.old frames.old
        → KeepsUp A.goes first (taken ++ piece.now) answering.new frames.new }
    ensures bad { (fault : FrameFault) → result ≡ Ok (Some fault) → (first : A) (taken : List ℕ)
        → KeepsUp A.goes first taken answering.old frames.old
        → AnswersAll A.goes first (taken ++ piece.now) (Bad fault) answering.new }
    ensures rests { OnOk result (A.rests answering.new) }
    ensures err { IfErr result (λ halt. (first : A) (taken : List ℕ)
        → KeepsUp A.goes first taken answering.old frames.old
        → AnswersSome A.halts first (taken ++ piece.now) halt answering.new) }
{
    let fault = feed(frames, piece)?;
    answer_whole(answering, frames)?;
    Ok(fault)
}
