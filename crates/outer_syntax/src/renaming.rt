//! Tokens under other names.

ghost use Rattle.std.specs.Prelude.{◌≡◌, ℕ, Bool, List};
ghost use Rattle.outer_syntax.specs.Words.{is_in_force};
ghost use Rattle.outer_syntax.specs.Tokens.{IsToken};
ghost use Rattle.outer_syntax.specs.Renaming.{is_word, renamed};

use crate::kind::Kind;
use crate::row::Row;
use crate::token::{Token, scalars};
use crate::word::kind_of;
use sqlite_items::Items;

/// Whether it is the kind of an identifier.
fn is_word(kind: Kind) -> bool
    ensures { result ≡ is_word kind }
{
    matches!(kind, Kind::Command | Kind::Keyword | Kind::Ident)
}

/// A token of the text under any names, as it is where these names are commands beside those of the
/// language: a word may be a command under some of them alone. The text is not lexed again.
pub fn renamed(text: &[char], names: &[Items<char>], token: Token) -> Token
    ensures value { result ≡ renamed (is_in_force names.now) text.now token }
    ensures token { (others : List ℕ → Bool) → IsToken others text.now token
        → IsToken (is_in_force names.now) text.now result }
{
    if !is_word(token.kind) {
        return token;
    }
    Token {
        kind: kind_of(names, Row::Word, scalars(text, token.range)),
        range: token.range,
    }
}
