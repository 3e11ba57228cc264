//! The byte message of a reply's chunks.
ghost use Rattle.std.specs.Prelude.{◌≡◌, ◌++◌, ◌∷◌, [], map, OnOk, IfOk, string_bytes, decimal, length};
ghost use Rattle.std.specs.List.{concat, join_with_byte};
ghost use Rattle.byte_message.specs.Stream.{plain_spelling};
ghost use Rattle.reply_messages.specs.Chunks.{chunk_bytes};

use crate::chunk::{Chunk, put_chunk, put_number};
use std::alloc::{AllocError, Global};

/// The message of a word and a number.
pub(crate) fn numbered(alloc: Global, word: &str, number: u64) -> Result<Vec<u8>, AllocError>
    ensures { IfOk result
        (λ bytes. bytes.items ≡ plain_spelling (word.now ∷ decimal number ∷ [])) }
{
    spelled(alloc, &[Chunk::Word(word), Chunk::Number(number)])
}

/// The message of these chunks.
pub(crate) fn spelled(alloc: Global, chunks: &[Chunk<'_>]) -> Result<Vec<u8>, AllocError>
    ensures { IfOk result (λ bytes. bytes.items ≡ plain_spelling (map chunk_bytes chunks.now)) }
{
    let mut text = String::new(alloc);
    let mut lengths = Vec::new(alloc);
    put_chunks(&mut text, &mut lengths, chunks)?;
    let line = line_of(alloc, lengths.as_slice())?;
    text.insert_str(0, line.as_str())?;
    Ok(text.into_bytes())
}

/// Adds the chunks, one after the other, and the length of each.
fn put_chunks(
    out: &mut String,
    lengths: &mut Vec<usize>,
    chunks: &[Chunk<'_>],
) -> Result<(), AllocError>
    ensures bytes { OnOk result (string_bytes out.new
        ≡ string_bytes out.old ++ concat (map chunk_bytes chunks.now)) }
    ensures lengths { OnOk result (lengths.new.items
        ≡ lengths.old.items ++ map (λ chunk. length (chunk_bytes chunk)) chunks.now) }
{
    'chunks: for chunk in chunks {
        let start = out.len();
        put_chunk(out, chunk)?;
        lengths.push(out.len() - start)?;
    }
    Ok(())
}

/// A message's header line.
fn line_of(alloc: Global, lengths: &[usize]) -> Result<String, AllocError>
    ensures { IfOk result (λ line. string_bytes line
        ≡ join_with_byte 44 (map decimal lengths.now) ++ 10 ∷ []) }
{
    let mut line = String::new(alloc);
    put_lengths(&mut line, lengths)?;
    line.push_str("\n")?;
    Ok(line)
}

/// Adds the lengths in decimal, joined by commas.
fn put_lengths(out: &mut String, lengths: &[usize]) -> Result<(), AllocError>
    ensures { OnOk result (string_bytes out.new
        ≡ string_bytes out.old ++ join_with_byte 44 (map decimal lengths.now)) }
{
    match lengths {
        [] => Ok(()),
        [only] => put_number(out, *only as u64),
        [first, rest @ ..] => {
            put_number(out, *first as u64)?;
            out.push_str(",")?;
            put_lengths(out, rest)
        }
    }
}
