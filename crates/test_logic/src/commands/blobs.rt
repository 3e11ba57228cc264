//! The facts that a blob lists (`command_steps`).
use crate::shared::scalars_of;
use command_steps::{BlobFault, facts_of};
use script_lines::{Answer, Call, Fault};
use std::alloc::{AllocError, Global};

/// Answers how many facts the text lists, or the number of its first bad line.
pub(crate) fn answer(alloc: Global, out: &mut String, call: &Call<'_>) -> Answer {
    match call.verb {
        "facts" => told(alloc, out, scalars_of(alloc, call.word(0)?)),
        _ => Err(Fault::Line),
    }
}

/// The same, of the text.
fn told(alloc: Global, out: &mut String, text: Result<Vec<char>, AllocError>) -> Answer {
    match facts_of(alloc, text?.as_slice()) {
        Ok(facts) => {
            let count = facts.len();
            Ok(write!(out, "{count}")?)
        }
        Err(BlobFault::BadLine(line)) => Ok(write!(out, "bad line {line}")?),
        Err(BlobFault::NoMemory) => Err(Fault::NoMemory),
    }
}
