//! A decoder: bytes go in by pieces, whole messages come out.

use crate::fault::{FeedError, Truncated};
use crate::message::Message;
use crate::part::{Line, Part};
use crate::state::State;
use std::alloc::Global;
use std::collections::VecDeque;
use std::marker::Model;

/// Reads a stream of byte messages, in whatever pieces it comes.
#[derive(Drop)]
pub struct Frames {
    alloc: Global,
    state: State,
}

impl Model for Frames {
    ghost use Rattle.byte_message.specs.Kept.{Framing};
    ghost use Rattle.byte_message.specs.State.{framing};

    ghost Value = { Framing };

    ghost view = { λ f. framing f.state };
}

impl Frames {
    ghost use Rattle.std.specs.Prelude.{◌≡◌, ℕ, List, [], ◌++◌, Err, option_to_list, IfSome};
    ghost use Rattle.byte_message.specs.declared.fault.FeedError.{FeedError};
    ghost use Rattle.byte_message.specs.Kept.{Stands};
    ghost use Rattle.byte_message.specs.Stream.{IsReadAs};
    ghost use Rattle.byte_message.specs.Feeding.{Feeds, Takes, ending_of, cut_off};
    ghost use Rattle.byte_message.specs.First.{FeedsFirst};

    /// A decoder at the beginning of a stream. It takes no memory.
    pub fn new(alloc: Global) -> Frames
        ensures { Stands [] [] result }
    {
        let part = Part::Line(Line {
            bytes: Vec::new(alloc),
        });
        let waiting = VecDeque::new(alloc);
        Frames {
            alloc,
            state: State {
                waiting,
                at: 0,
                part,
            },
        }
    }

    /// Takes the next piece, and answers how many messages it made whole; `next` hands them out.
    /// The first fault is the answer from then on, and whole messages before it can still be
    /// taken. Where memory runs out nothing has changed.
    pub fn feed(&mut self, piece: &[u8]) -> Result<usize, FeedError>
        ensures feeds { Feeds self.old piece.now self.new result }
        ensures faulted { IfSome self.old.fault (λ fault.
            (result ≡ Err (FeedError.Frame fault)) × (self.new ≡ self.old)) }
    {
        if let Some(fault) = self.state.part.fault() {
            return Err(FeedError::Frame(fault));
        }
        let made = self.state.feed(self.alloc, piece)?;
        if let Some(fault) = self.state.part.fault() {
            return Err(FeedError::Frame(fault));
        }
        Ok(made)
    }

    /// Takes the next piece up to the end of the first message that it makes whole, or all of it
    /// where it makes none. Answers how many bytes it took; `next` hands the message out. A fault
    /// is answered from then on, and where memory runs out nothing has changed, as by `feed`.
    pub fn feed_first(&mut self, piece: &[u8]) -> Result<usize, FeedError>
        ensures feeds { FeedsFirst self.old piece.now self.new result }
        ensures faulted { IfSome self.old.fault (λ fault.
            (result ≡ Err (FeedError.Frame fault)) × (self.new ≡ self.old)) }
    {
        if let Some(fault) = self.state.part.fault() {
            return Err(FeedError::Frame(fault));
        }
        let used = self.state.feed_first(self.alloc, piece)?;
        if let Some(fault) = self.state.part.fault() {
            return Err(FeedError::Frame(fault));
        }
        Ok(used)
    }

    /// Where the message in progress begins, or the next one: its first byte, counted from the
    /// stream's beginning; past 2^64 - 1 it is told as that.
    pub fn place(&self) -> u64
        ensures { result ≡ self.now.at }
    {
        self.state.at
    }

    /// The next whole message; `None` exactly where none is whole.
    pub fn next(&mut self) -> Option<Message>
        ensures takes { Takes self.old self.new result }
        ensures stands { (stream : List ℕ) (taken : List (List (List ℕ)))
            → Stands stream taken self.old
            → Stands stream (taken ++ option_to_list result) self.new }
    {
        self.state.waiting.pop_front()
    }

    /// Whether the stream may end here: `Err` exactly where it would end within a message. A
    /// stream at fault doesn't end within one.
    pub fn finish(&self) -> Result<(), Truncated>
        ensures finish { result ≡ cut_off (ending_of self.now) }
        ensures read { (stream : List ℕ) (taken : List (List (List ℕ)))
            → Stands stream taken self.now
            → IsReadAs stream (taken ++ self.now.waiting) (ending_of self.now) }
    {
        let at = self.state.at;
        match &self.state.part {
            Part::Bad(_) => Ok(()),
            Part::Line(line) if line.bytes.is_empty() => Ok(()),
            _ => Err(Truncated { at }),
        }
    }
}
