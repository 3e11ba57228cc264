//! What a decoder keeps, and what a piece does to it.
ghost use Rattle.std.specs.Prelude.{◌≡◌, [], ◌++◌, ◌+◌, IfOk, OnOk, OnErr, IsOk, ◌≤◌, length, None};
ghost use Rattle.std.specs.VecDeque.{deque_len, deque_capacity};
ghost use Rattle.byte_message.specs.Kept.{Advances};
ghost use Rattle.byte_message.specs.Parts.{rest_of, fault_of};
ghost use Rattle.byte_message.specs.Begun.{BeginsAs};
ghost use Rattle.byte_message.specs.Chunks.{cut};
ghost use Rattle.byte_message.specs.First.{LeadsOn};
ghost use Rattle.byte_message.specs.Stream.{told_place};

use crate::begin::{Begun, begin};
use crate::message::Message;
use crate::part::{Chunks, Line, Part};
use crate::read::{Reading, read};
use std::alloc::{AllocError, Global};
use std::collections::VecDeque;
use std::mem;

/// Whole messages that wait to be taken, the place after them, and the message in progress.
#[derive(Drop)]
pub struct State {
    pub(crate) waiting: VecDeque<Message>,
    pub(crate) at: u64,
    pub(crate) part: Part,
}

impl State {
    ghost use Rattle.byte_message.specs.State.{framing, HoldsLine, HoldsChunks, GrowsBy, HasRoom};

    /// Takes the next piece, where no fault was judged. Answers how many messages it made.
    pub(crate) fn feed(&mut self, alloc: Global, piece: &[u8]) -> Result<usize, AllocError>
        requires { fault_of self.old.part ≡ None }
        ensures ok { OnOk result (Advances (framing self.old) piece.now (framing self.new)) }
        ensures made { IfOk result (λ made. GrowsBy self.old self.new made) }
        ensures err { OnErr result (framing self.new ≡ framing self.old) }
    {
        match &self.part {
            Part::Bad(_) => Ok(0),
            Part::Line(line) => {
                let held = line.bytes.len();
                let begun = begin(alloc, line.bytes.as_slice(), piece)?;
                self.take_begun(alloc, begun, held, piece)
            }
            Part::Chunks(_) => self.feed_chunks(alloc, piece),
        }
    }

    /// What came of a line that hadn't ended, of `held` bytes.
    fn take_begun(
        &mut self,
        alloc: Global,
        begun: Begun,
        held: usize,
        piece: &[u8],
    ) -> Result<usize, AllocError>
        requires line { HoldsLine self.old.part }
        requires held { held ≡ length (rest_of self.old.part) }
        requires begun { BeginsAs (rest_of self.old.part) piece.now begun }
        ensures ok { OnOk result (Advances (framing self.old) piece.now (framing self.new)) }
        ensures made { IfOk result (λ made. GrowsBy self.old self.new made) }
        ensures err { OnErr result (framing self.new ≡ framing self.old) }
    {
        let place = self.at;
        match begun {
            Begun::Line => {
                if let Part::Line(line) = &mut self.part {
                    line.bytes.extend_from_slice(piece)?;
                }
                Ok(0)
            }
            Begun::Bad(fault) => {
                self.part = Part::Bad(fault.placed(place));
                Ok(0)
            }
            Begun::Within(chunks) => {
                self.part = Part::Chunks(chunks);
                Ok(0)
            }
            Begun::Whole { message, used } => {
                let mut made = VecDeque::new(alloc);
                made.push_back(message)?;
                let at = place
                    .saturating_add(held as u64)
                    .saturating_add(used as u64);
                let reading = read(alloc, made, at, &piece[used..])?;
                self.join(reading)
            }
        }
    }

    /// Takes what was read over.
    fn join(&mut self, reading: Reading) -> Result<usize, AllocError>
        ensures ok { OnOk result (
            (self.new.waiting.items ≡ self.old.waiting.items ++ reading.made.items)
            × (self.new.at ≡ reading.at) × (self.new.part ≡ reading.part)) }
        ensures made { IfOk result (λ made. made ≡ length reading.made.items) }
        ensures room { HasRoom self.old (deque_len reading.made) → IsOk result }
        ensures err { OnErr result (framing self.new ≡ framing self.old) }
    {
        let Reading { mut made, at, part } = reading;
        let count = made.len();
        self.waiting.append(&mut made)?;
        self.at = at;
        self.part = part;
        Ok(count)
    }

    /// A piece, where a fit line is kept and fewer bytes than its chunks have.
    fn feed_chunks(&mut self, alloc: Global, piece: &[u8]) -> Result<usize, AllocError>
        requires { HoldsChunks self.old.part }
        ensures ok { OnOk result (Advances (framing self.old) piece.now (framing self.new)) }
        ensures made { IfOk result (λ made. GrowsBy self.old self.new made) }
        ensures err { OnErr result (framing self.new ≡ framing self.old) }
    {
        let place = self.at;
        let chunks = match &mut self.part {
            Part::Chunks(chunks) => chunks,
            _ => return Ok(0),
        };
        let missing = chunks.whole - chunks.bytes.len();
        if piece.len() < missing {
            chunks.bytes.extend_from_slice(piece)?;
            return Ok(0);
        }
        let at = place
            .saturating_add(chunks.line.len() as u64)
            .saturating_add(chunks.whole as u64);
        let mut reading = read(alloc, VecDeque::new(alloc), at, &piece[missing..])?;
        reading.made.reserve(1)?;
        self.waiting.reserve(reading.made.len() + 1)?;
        let message = complete(alloc, chunks, &piece[..missing])?;
        reading.made.push_front_reserved(message);
        self.join(reading)
    }

    /// Takes the next piece up to the end of the first message that it makes, where no fault was
    /// judged. Answers how many bytes it took.
    pub(crate) fn feed_first(&mut self, alloc: Global, piece: &[u8]) -> Result<usize, AllocError>
        requires { fault_of self.old.part ≡ None }
        ensures ok { IfOk result (LeadsOn (framing self.old) piece.now (framing self.new)) }
        ensures err { OnErr result (framing self.new ≡ framing self.old) }
    {
        match &self.part {
            Part::Bad(_) => Ok(0),
            Part::Line(line) => {
                let held = line.bytes.len();
                let begun = begin(alloc, line.bytes.as_slice(), piece)?;
                self.take_first(alloc, begun, held, piece)
            }
            Part::Chunks(_) => self.fill_chunks(alloc, piece),
        }
    }

    /// What came of a line that hadn't ended, of `held` bytes, up to the end of its message.
    fn take_first(
        &mut self,
        alloc: Global,
        begun: Begun,
        held: usize,
        piece: &[u8],
    ) -> Result<usize, AllocError>
        requires line { HoldsLine self.old.part }
        requires held { held ≡ length (rest_of self.old.part) }
        requires begun { BeginsAs (rest_of self.old.part) piece.now begun }
        ensures ok { IfOk result (LeadsOn (framing self.old) piece.now (framing self.new)) }
        ensures err { OnErr result (framing self.new ≡ framing self.old) }
    {
        let place = self.at;
        match begun {
            Begun::Line => {
                if let Part::Line(line) = &mut self.part {
                    line.bytes.extend_from_slice(piece)?;
                }
            }
            Begun::Bad(fault) => self.part = Part::Bad(fault.placed(place)),
            Begun::Within(chunks) => self.part = Part::Chunks(chunks),
            Begun::Whole { message, used } => {
                self.waiting.push_back(message)?;
                self.go_on(alloc, held, used);
                return Ok(used);
            }
        }
        Ok(piece.len())
    }

    /// Goes on to the message behind the one in progress, of which so many bytes were held, and so
    /// many came with the piece.
    fn go_on(&mut self, alloc: Global, held: usize, used: usize)
        ensures waiting { self.new.waiting ≡ self.old.waiting }
        ensures at { self.new.at ≡ told_place (self.old.at + (held + used)) }
        ensures rest { rest_of self.new.part ≡ [] }
        ensures fault { fault_of self.new.part ≡ None }
    {
        self.at = self
            .at
            .saturating_add(held as u64)
            .saturating_add(used as u64);
        self.part = Part::Line(Line {
            bytes: Vec::new(alloc),
        });
    }

    /// A piece up to the end of the message, where a fit line is kept and fewer bytes than its
    /// chunks have.
    fn fill_chunks(&mut self, alloc: Global, piece: &[u8]) -> Result<usize, AllocError>
        requires { HoldsChunks self.old.part }
        ensures ok { IfOk result (LeadsOn (framing self.old) piece.now (framing self.new)) }
        ensures err { OnErr result (framing self.new ≡ framing self.old) }
    {
        let chunks = match &mut self.part {
            Part::Chunks(chunks) => chunks,
            _ => return Ok(0),
        };
        let missing = chunks.whole - chunks.bytes.len();
        if piece.len() < missing {
            chunks.bytes.extend_from_slice(piece)?;
            return Ok(piece.len());
        }
        let held = chunks.line.len() + chunks.bytes.len();
        self.waiting.reserve(1)?;
        let message = complete(alloc, chunks, &piece[..missing])?;
        self.waiting.push_back_reserved(message);
        self.go_on(alloc, held, missing);
        Ok(missing)
    }
}

/// The message whose last bytes these are.
fn complete(alloc: Global, chunks: &mut Chunks, front: &[u8]) -> Result<Message, AllocError>
    requires { length chunks.old.bytes.items + length front.now ≡ chunks.old.whole }
    ensures ok { IfOk result (λ message.
        message ≡ cut chunks.old.lengths (chunks.old.bytes.items ++ front.now)) }
    ensures err { OnErr result ((chunks.new.line.items ≡ chunks.old.line.items)
        × (chunks.new.bytes.items ≡ chunks.old.bytes.items)) }
{
    let mut bytes = mem::replace(&mut chunks.bytes, Vec::new(alloc));
    match bytes.extend_from_slice(front) {
        Ok(()) => Ok(Message::new(chunks.lengths.copy(), bytes)),
        Err(error) => {
            chunks.bytes = bytes;
            Err(error)
        }
    }
}
