use nj_formula::Name;

/// A token of formulas and terms.
#[derive(Drop)]
pub enum Token {
    /// An identifier.
    Name(Name),
    /// `~`
    Not,
    /// `&`
    And,
    /// `|`
    Or,
    /// `-->`
    Implies,
    /// `(`
    Open,
    /// `)`
    Close,
    /// `,`
    Comma,
    /// `.`
    Dot,
}

/// A token, and the scalar at which it begins.
#[derive(Drop)]
pub struct Placed {
    pub token: Token,
    pub at: usize,
}

/// What stands next in a text, behind blanks. Places are told in scalars.
#[derive(Drop)]
pub enum Next {
    /// A token, and the place right behind it.
    Token(Placed, usize),
    /// The first scalar with which no token begins.
    Stray(usize),
    /// The text's end.
    End,
}
