//! Reading from between two messages on.
ghost use Rattle.std.specs.Prelude.{ℕ, List, IfOk};
ghost use Rattle.byte_message.specs.Kept.{Reached, KeepsRest};
ghost use Rattle.byte_message.specs.Parts.{rest_of, fault_of};

use crate::begin::{Begun, begin};
use crate::message::Message;
use crate::part::{Line, Part};
use std::alloc::{AllocError, Global};
use std::collections::VecDeque;

/// The messages made of some bytes, the place after them, and what is kept of the next.
#[derive(Drop)]
pub(crate) struct Reading {
    pub(crate) made: VecDeque<Message>,
    pub(crate) at: u64,
    pub(crate) part: Part,
}

/// Reads bytes that come after the messages made before. `at` is the place where they begin.
pub(crate) fn read(
    alloc: Global,
    before: VecDeque<Message>,
    at: u64,
    bytes: &[u8],
) -> Result<Reading, AllocError>
    ensures { IfOk result (λ reading. (rest : List ℕ)
        × Reached before.items at bytes.now reading.made.items reading.at rest
        × KeepsRest (fault_of reading.part) reading.at rest (rest_of reading.part)) }
{
    let mut made = before;
    let mut place = at;
    let mut rest = bytes;
    loop {
        match begin(alloc, &[], rest)? {
            Begun::Whole { message, used } => {
                made.push_back(message)?;
                rest = &rest[used..];
                place = place.saturating_add(used as u64);
            }
            Begun::Within(chunks) => {
                return Ok(Reading {
                    made,
                    at: place,
                    part: Part::Chunks(chunks),
                });
            }
            Begun::Line => {
                let bytes = Vec::from_slice(alloc, rest)?;
                return Ok(Reading {
                    made,
                    at: place,
                    part: Part::Line(Line { bytes }),
                });
            }
            Begun::Bad(fault) => {
                return Ok(Reading {
                    made,
                    at: place,
                    part: Part::Bad(fault.placed(place)),
                });
            }
        }
    }
}
