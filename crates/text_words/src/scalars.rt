//! Scalars as texts in UTF-8.
ghost use Rattle.std.specs.Prelude.{◌≡◌, IfOk};
ghost use Rattle.std.specs.String.{string_bytes};
ghost use Rattle.std.specs.Str.{encode_utf8_all};

use std::alloc::{AllocError, Global};

/// The scalars as a text, in memory of its own.
pub fn text_of(alloc: Global, scalars: &[char]) -> Result<String, AllocError>
    ensures { IfOk result (λ text. string_bytes text ≡ encode_utf8_all scalars.now) }
{
    let mut text = String::new(alloc);
    let mut rest = scalars;
    'scalars: while let [scalar, more @ ..] = rest {
        text.push(*scalar)?;
        rest = more;
    }
    Ok(text)
}
