//! The kinds of tokens.

ghost use Rattle.std.specs.Prelude.{◌≡◌};
ghost use Rattle.outer_syntax.specs.Kinds.{is_proper};

/// The kind of a token. `Space` and `Comment` are improper, all others proper.
#[derive(Clone, Copy, Debug, PartialEq, Eq)]
pub enum Kind {
    Space,
    Comment,
    String,
    Cartouche,
    Symbol,
    LongIdent,
    Command,
    Keyword,
    Ident,
    /// Any other one scalar.
    Sym,
    /// A comment, a string or a cartouche that doesn't end, to the text's end.
    Error,
}

/// Whether tokens of the kind are proper: all but spaces and comments.
pub fn is_proper(kind: Kind) -> bool
    ensures { result ≡ is_proper kind }
{
    !matches!(kind, Kind::Space | Kind::Comment)
}
