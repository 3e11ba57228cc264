ghost use Rattle.nj_syntax.specs.TokenLaws.{HasOneCut};

/// A law: each text has one list of tokens and one place where they stop, and the recursion gives
/// them.
pub fn one_cut()
    ensures { HasOneCut }
{}
