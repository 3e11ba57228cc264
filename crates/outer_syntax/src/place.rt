//! The symbols of a text.

ghost use Rattle.std.specs.Prelude.{◌<◌, ◌≤◌, length, IfOk};
ghost use Rattle.outer_syntax.specs.Symbols.{IsSymbolAt, AreSymbols};

use crate::name::named_symbol;
use std::alloc::{AllocError, Global};

/// Where the symbol that begins at `start` ends.
pub(crate) fn symbol_end(text: &[char], start: usize) -> usize
    requires { start < length text.now }
    ensures at { IsSymbolAt text.now start result }
    ensures within { result ≤ length text.now }
{
    let (_, rest) = text.split_at(start);
    match named_symbol(rest) {
        Some(n) => start + n,
        None => start + 1,
    }
}

/// The start and the stop of each symbol of the text, in scalars.
pub fn symbols(alloc: Global, text: &[char]) -> Result<Vec<(usize, usize)>, AllocError>
    ensures { IfOk result (λ v. AreSymbols text.now v.items) }
{
    let mut found = Vec::new(alloc);
    let mut start = 0;
    while start < text.len() {
        let stop = symbol_end(text, start);
        found.push((start, stop))?;
        start = stop;
    }
    Ok(found)
}
