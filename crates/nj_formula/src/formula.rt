use crate::argument::Argument;
use crate::name::Name;
use crate::shared::Shared;
use sqlite_items::Items;

/// A first-order formula, whose parts are shared. Contracts see the parts as formulas, and compare
/// formulas by what they say (`specs/Meaning.antt`).
#[derive(Debug)]
pub enum Formula {
    False,
    /// A predicate of its arguments; with none, a propositional atom.
    Atom(Name, Shared<Items<Argument>>),
    Not(Shared<Formula>),
    And(Shared<Formula>, Shared<Formula>),
    Or(Shared<Formula>, Shared<Formula>),
    Implies(Shared<Formula>, Shared<Formula>),
    /// `ALL`: the name as written, and the body, in which the place 0 is what it binds.
    All(Name, Shared<Formula>),
    /// `EX`: the name as written, and the body, in which the place 0 is what it binds.
    Exists(Name, Shared<Formula>),
}

/// By hand, so that a formula is let go by one call wherever it ends.
impl Drop for Formula {
    fn drop(self) {
        match self {
            Formula::False => (),
            Formula::Atom(_predicate, arguments) => drop(arguments),
            Formula::Not(a) => drop(a),
            Formula::And(a, b) | Formula::Or(a, b) | Formula::Implies(a, b) => {
                drop(a);
                drop(b);
            }
            Formula::All(_name, body) | Formula::Exists(_name, body) => drop(body),
        }
    }
}
