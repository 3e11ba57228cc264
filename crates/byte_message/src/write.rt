//! Writing messages.
ghost use Rattle.std.specs.Prelude.{◌≡◌, [], ◌∷◌, ◌++◌, ◌<◌, ◌^◌, OnOk, IfOk, length, map};
ghost use Rattle.std.specs.Fmt.{decimal};
ghost use Rattle.std.specs.List.{concat, join_with_byte};
ghost use Rattle.byte_message.specs.Stream.{IsMessage, plain_spelling};

use crate::line::LONGEST_LINE;
use itoa::Buffer;
use sqlite_items::Items;
use std::alloc::{AllocError, Global};

/// The lengths of the chunks in decimal, joined by commas.
fn put_lengths(out: &mut Vec<u8>, chunks: &[Items<u8>]) -> Result<(), AllocError>
    ensures { OnOk result (out.new.items ≡ out.old.items
        ++ join_with_byte 44 (map (λ chunk. decimal (length chunk)) chunks.now)) }
{
    match chunks {
        [] => Ok(()),
        [only] => put_decimal(out, only.len() as u64),
        [first, rest @ ..] => {
            put_decimal(out, first.len() as u64)?;
            out.push(b',')?;
            put_lengths(out, rest)
        }
    }
}

/// A number in decimal.
fn put_decimal(out: &mut Vec<u8>, number: u64) -> Result<(), AllocError>
    ensures { OnOk result (out.new.items ≡ out.old.items ++ decimal number) }
{
    let mut buffer = Buffer::new();
    out.extend_from_slice(buffer.format(number).as_bytes())
}

/// The chunks with nothing between them.
fn put_chunks(out: &mut Vec<u8>, chunks: &[Items<u8>]) -> Result<(), AllocError>
    ensures { OnOk result (out.new.items ≡ out.old.items ++ concat chunks.now) }
{
    match chunks {
        [] => Ok(()),
        [first, rest @ ..] => {
            out.extend_from_slice(first.as_slice())?;
            put_chunks(out, rest)
        }
    }
}

/// Appends a message's bytes: its header line, without CR or leading zeros, and its chunks, which
/// may be of any number and length here. Where memory runs out a front of them may be there.
pub fn append_message(out: &mut Vec<u8>, chunks: &[Items<u8>]) -> Result<(), AllocError>
    ensures { OnOk result (out.new.items ≡ out.old.items ++ plain_spelling chunks.now) }
{
    put_lengths(out, chunks)?;
    out.push(b'\n')?;
    put_chunks(out, chunks)
}

/// How many bytes the chunks have in all.
fn body_length(chunks: &[Items<u8>]) -> usize
    requires { length (concat chunks.now) < 2 ^ 63 }
    ensures { result ≡ length (concat chunks.now) }
{
    match chunks {
        [] => 0,
        [first, rest @ ..] => first.len() + body_length(rest),
    }
}

/// The bytes of a message of 1 to 16 chunks, of at most 2^24 bytes each, which are read as it was,
/// whatever follows them (`written_is_read`). Memory is taken once.
pub fn write_message(alloc: Global, chunks: &[Items<u8>]) -> Result<Vec<u8>, AllocError>
    requires { IsMessage chunks.now }
    ensures { IfOk result (λ bytes. bytes.items ≡ plain_spelling chunks.now) }
{
    let mut out = Vec::with_capacity(alloc, LONGEST_LINE + 1 + body_length(chunks))?;
    append_message(&mut out, chunks)?;
    Ok(out)
}
