use crate::operator::{Operator, Quantifier};
use nj_formula::{Argument, Formula, Name};
use sqlite_items::Items;

/// What has begun and waits for its operand, its body or its closing parenthesis.
#[derive(Drop)]
pub enum Pending {
    Not,
    /// An operator with its left operand.
    Right(Operator, Formula),
    Parenthesis,
    Body(Quantifier, Name),
    /// A predicate with the arguments that are whole.
    Predicate(Name, Items<Argument>),
    /// A function with the arguments that are whole.
    Function(Name, Items<Argument>),
}

/// What the next token may be.
#[derive(Drop)]
pub enum Mode {
    /// The first one of an operand.
    Operand,
    /// The name that the quantifier binds.
    Binder(Quantifier),
    /// The dot after that name.
    Dot(Quantifier, Name),
    /// What follows an atom's name, perhaps its arguments.
    Atom(Name),
    /// What follows an operand.
    Operator(Formula),
    /// The first one of an argument.
    Argument,
    /// What follows a name in the place of an argument, perhaps its own arguments.
    Head(Name),
    /// What follows an argument.
    Comma(Argument),
}

/// Where the reading stands after some tokens.
#[derive(Drop)]
pub struct State {
    pub mode: Mode,
    /// The newest is the last.
    pub pending: Items<Pending>,
}

/// The state after a token, and the token's depth.
#[derive(Drop)]
pub struct Step {
    pub state: State,
    pub depth: usize,
}
