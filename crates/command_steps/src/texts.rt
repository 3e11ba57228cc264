//! Texts of reports.
ghost use Rattle.std.specs.Prelude.{◌≡◌, IfOk, string_bytes};

use nj_formula::Name;
use report_markup::{PlainText, is_plain};
use std::alloc::{AllocError, Global};

/// The text, in the memory that it has, as one that reports share. It has to be plain.
pub fn plain(text: String) -> Result<PlainText, AllocError>
    ensures { IfOk result (λ plain. plain ≡ string_bytes text) }
{
    if is_plain(text.as_str()) {
        PlainText::from_string(text)
    } else {
        Err(AllocError)
    }
}

/// The name's text, in the memory that it has. It has to be plain.
pub(crate) fn shared(name: &Name) -> Result<PlainText, AllocError>
    ensures { IfOk result (λ text. text ≡ name.now) }
{
    if is_plain(name.as_str()) {
        Ok(PlainText::shared(name.text()?))
    } else {
        Err(AllocError)
    }
}

/// The scalars as a text. They have to be in ASCII.
pub fn ascii(alloc: Global, scalars: &[char]) -> Result<String, AllocError>
    ensures { IfOk result (λ text. string_bytes text ≡ scalars.now) }
{
    let mut text = String::with_capacity(alloc, scalars.len())?;
    let mut rest = scalars;
    'scalars: while let [scalar, more @ ..] = rest {
        if *scalar as u32 >= 128 {
            return Err(AllocError);
        }
        text.push(*scalar)?;
        rest = more;
    }
    Ok(text)
}
