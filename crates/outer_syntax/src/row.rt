//! The rows of the table of tokens.

ghost use Rattle.std.specs.Prelude.{◌<◌, length};
ghost use Rattle.outer_syntax.specs.Rows.{IsFirstRow, IsOther};

use crate::blank::blank_run;
use crate::bracket::{Bracket, bracket_row};
use crate::long_name::word;
use crate::name::named_symbol;
use text_words::is_blank;

/// A row of the table of tokens. A word is a command, a keyword or an identifier, by its name.
#[derive(Clone, Copy, Debug, PartialEq, Eq)]
pub enum Row {
    Space,
    Enclosed(Bracket),
    Error,
    Symbol,
    LongIdent,
    Word,
    Sym,
}

/// The row of a text that begins with neither a blank nor an identifier, and how many scalars its
/// longest match has.
fn other_row(text: &[char]) -> (Row, usize)
    requires { IsOther text.now }
    ensures { IsFirstRow text.now result.0 result.1 }
{
    if let Some(row) = bracket_row(Bracket::Comment, text) {
        return row;
    }
    if let Some(row) = bracket_row(Bracket::String, text) {
        return row;
    }
    if let Some(row) = bracket_row(Bracket::Cartouche, text) {
        return row;
    }
    match named_symbol(text) {
        Some(n) => (Row::Symbol, n),
        None => (Row::Sym, 1),
    }
}

/// The first row that fits the text, and how many scalars its longest match has.
pub fn first_row(text: &[char]) -> (Row, usize)
    requires { 0 < length text.now }
    ensures { IsFirstRow text.now result.0 result.1 }
{
    if is_blank(text[0]) {
        return (Row::Space, blank_run(text));
    }
    match word(text) {
        Some(row) => row,
        None => other_row(text),
    }
}
