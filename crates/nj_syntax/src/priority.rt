ghost use Rattle.std.specs.Prelude.{◌≡◌};
ghost use Rattle.nj_syntax.specs.Prints.{is_enclosed};

use nj_formula::Formula;

/// How strongly `~` binds.
pub const NOT: usize = 40;

/// How strongly `&` binds.
pub const AND: usize = 35;

/// How strongly `|` binds.
pub const OR: usize = 30;

/// How strongly `-->` binds.
pub const IMPLIES: usize = 25;

/// How strongly a quantifier binds, the least of all.
pub const QUANTIFIER: usize = 10;

/// Whether the formula binds too weakly for a place for this priority and higher ones.
pub fn is_enclosed(formula: &Formula, place: usize) -> bool
    ensures { result ≡ is_enclosed place formula.now }
{
    match formula {
        Formula::False | Formula::Atom(_, _) => false,
        Formula::Not(_) => place > NOT,
        Formula::And(_, _) => place > AND,
        Formula::Or(_, _) => place > OR,
        Formula::Implies(_, _) => place > IMPLIES,
        Formula::All(_, _) | Formula::Exists(_, _) => place > QUANTIFIER,
    }
}
