//! Names and texts of nodes.
ghost use Rattle.std.specs.Prelude.{◌≡◌, ◌++◌, ◌≤◌, ℕ, OnOk, IfOk, decimal, flat_map, string_bytes};
ghost use Rattle.std.specs.List.{range_with_len};
ghost use Rattle.made_document.specs.Texts.{name, header, import_of, lemma_line, lemma_count, lemmas, text};

use itoa::Buffer;
use std::alloc::{AllocError, Global};

/// The most lemmas of a node.
const LEMMA_COUNT: u64 = 8;

/// What stands behind the lemmas.
pub(crate) const ENDING: &str = "end";

/// Adds a number in decimal.
pub(crate) fn put_number(out: &mut String, number: u64) -> Result<(), AllocError>
    ensures { OnOk result (string_bytes out.new ≡ string_bytes out.old ++ decimal number) }
{
    let mut buffer = Buffer::new();
    out.push_str(buffer.format(number))
}

/// Adds the name of a node.
fn put_name(out: &mut String, number: u64) -> Result<(), AllocError>
    ensures { OnOk result (string_bytes out.new ≡ string_bytes out.old ++ name number) }
{
    out.push_str("T")?;
    put_number(out, number)
}

/// The name of a node.
pub(crate) fn name(alloc: Global, number: u64) -> Result<String, AllocError>
    ensures { IfOk result (λ text. string_bytes text ≡ name number) }
{
    let mut text = String::new(alloc);
    put_name(&mut text, number)?;
    Ok(text)
}

/// Adds the import of a node.
fn put_import(out: &mut String, number: u64) -> Result<(), AllocError>
    ensures { OnOk result (string_bytes out.new ≡ string_bytes out.old ++ import_of number) }
{
    if number == 1 {
        return Ok(());
    }
    out.push_str(" imports ")?;
    put_name(out, number / 2)
}

/// Adds the header of a node.
fn put_header(out: &mut String, number: u64) -> Result<(), AllocError>
    ensures { OnOk result (string_bytes out.new ≡ string_bytes out.old ++ header number) }
{
    out.push_str("theory ")?;
    put_name(out, number)?;
    put_import(out, number)?;
    out.push_str(" begin\n")
}

/// Adds a lemma with its proof.
fn put_lemma(out: &mut String, number: u64) -> Result<(), AllocError>
    ensures { OnOk result (string_bytes out.new ≡ string_bytes out.old ++ lemma_line number) }
{
    out.push_str("lemma l")?;
    put_number(out, number)?;
    out.push_str(": \"P --> P\" by (impI h h)\n")
}

/// Adds the lemmas of a node.
fn put_lemmas(out: &mut String) -> Result<(), AllocError>
    ensures { OnOk result (string_bytes out.new ≡ string_bytes out.old ++ lemmas) }
{
    'lemmas: for before in 0..LEMMA_COUNT {
        put_lemma(out, before + 1)?;
    }
    Ok(())
}

/// The text of a node.
pub(crate) fn text(alloc: Global, number: u64) -> Result<String, AllocError>
    ensures { IfOk result (λ made. string_bytes made ≡ text number) }
{
    let mut made = String::new(alloc);
    put_header(&mut made, number)?;
    put_lemmas(&mut made)?;
    made.push_str(ENDING)?;
    Ok(made)
}
