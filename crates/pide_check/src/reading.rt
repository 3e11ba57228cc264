//! Reading a text to its end.
ghost use Rattle.std.specs.Prelude.{◌≡◌, ◌≢◌, ◌+◌, ◌≤◌, ◌<◌, ◌++◌, ◌∷◌, ℕ, List, Option, IfOk, OnErr, Ok, length, vec_len};
ghost use Rattle.std.specs.Io.KnownBytes.{Consumes, IsAtEnd, Keeps};
ghost use Rattle.pide_base.specs.Faults.{Rose};
ghost use Rattle.pide_check.specs.Reading.{IsRead, ReadSo, TookSo, most_bytes};
ghost use Rattle.pide_check.specs.Steps.{StepSo};

use crate::input::Input;
use pide_base::{Pulled, Source};
use std::alloc::{AllocError, Global};
use text_edits::Text;

/// The most bytes of a text: 2^24.
const MOST_BYTES: usize = 16_777_216;

/// How many bytes are pulled at most at once.
const PIECE: usize = 65_536;

/// A buffer of so many bytes.
fn buffer(alloc: Global, len: usize) -> Result<Vec<u8>, AllocError>
    ensures { IfOk result (λ buffer. vec_len buffer ≡ len) }
{
    vec![in alloc; 0u8; len]
}

/// What came of a pull.
#[derive(Clone, Copy, Debug, PartialEq, Eq)]
enum Step {
    /// Bytes were taken.
    Took,
    /// No byte is left.
    End,
    /// The source failed.
    Failed,
}

/// Pulls a piece into the buffer, and adds it to the bytes. For want of memory a piece that is lost
/// may have been taken.
fn pull_more<S: Source>(
    source: &mut S,
    buffer: &mut [u8],
    bytes: &mut Vec<u8>,
) -> Result<Step, AllocError>
    requires { 0 < length buffer.old }
    ensures ok { IfOk result (λ step. (first : Option (List ℕ))
        → Consumes first (S.left source.old) bytes.old.items → StepSo step first
        (S.left source.new) bytes.old.items bytes.new.items (length buffer.old)) }
    ensures err { OnErr result ((first : Option (List ℕ))
        → Consumes first (S.left source.old) bytes.old.items → TookSo first
        (S.left source.new) (length bytes.old.items + length buffer.old)) }
    ensures cause { result ≡ Ok Step.Failed → Rose (S.faults source.old) (S.faults source.new) }
    ensures steady { S.faults source.old ≤ S.faults source.new }
{
    match source.pull(buffer) {
        Pulled::Bytes(count) => {
            bytes.extend_from_slice(&buffer[..count])?;
            Ok(Step::Took)
        }
        Pulled::End => Ok(Step::End),
        Pulled::Failed => Ok(Step::Failed),
    }
}

/// The text that the source has. One byte more than a text may have is taken at most. For want of
/// memory some bytes may have been taken.
pub fn read_text<S: Source>(alloc: Global, source: &mut S) -> Result<Input, AllocError>
    ensures ok { IfOk result (λ answer. IsRead answer (S.left source.old) (S.left source.new)) }
    ensures err { OnErr result (TookSo (S.left source.old) (S.left source.new) (most_bytes + 1)) }
    ensures cause { result ≡ Ok Input.ReadFault
        → Rose (S.faults source.old) (S.faults source.new) }
    ensures steady { S.faults source.old ≤ S.faults source.new }
{
    let mut buffer = buffer(alloc, PIECE)?;
    let mut bytes = Vec::new(alloc);
    'pulling: while bytes.len() <= MOST_BYTES {
        let room = (MOST_BYTES + 1 - bytes.len()).min(PIECE);
        match pull_more(source, &mut buffer[..room], &mut bytes)? {
            Step::Took => {}
            Step::End => return decoded(alloc, &bytes),
            Step::Failed => return Ok(Input::ReadFault),
        }
    }
    Ok(Input::LongInput)
}

/// The text of all bytes.
fn decoded(alloc: Global, bytes: &[u8]) -> Result<Input, AllocError>
    requires { length bytes.now ≤ most_bytes }
    ensures ok { IfOk result (λ answer. (left : Option (List ℕ)) → IsAtEnd left
        → ReadSo answer bytes.now left) }
    ensures no_fault { result ≢ Ok Input.ReadFault }
{
    match std::str::from_utf8(bytes) {
        Ok(text) => Ok(Input::Whole(Text::from_str(alloc, text)?)),
        Err(error) => Ok(Input::BadText {
            at: error.valid_up_to() as u64,
        }),
    }
}
