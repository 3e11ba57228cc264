ghost use Rattle.std.specs.Prelude.{◌≡◌, IfOk};
ghost use Rattle.nj_syntax.specs.Grammar.{priority, joined, quantified};

use nj_formula::{Formula, Name};
use std::alloc::{AllocError, Global};

/// What joins two formulas.
#[derive(Copy, Clone, Debug)]
pub enum Operator {
    /// `&`
    And,
    /// `|`
    Or,
    /// `-->`
    Implies,
}

/// What binds a name.
#[derive(Copy, Clone, Debug)]
pub enum Quantifier {
    /// `ALL`
    All,
    /// `EX`
    Exists,
}

impl Operator {
    /// How strongly it binds.
    pub fn priority(self) -> u32
        ensures { result ≡ priority self }
    {
        match self {
            Operator::And => 35,
            Operator::Or => 30,
            Operator::Implies => 25,
        }
    }

    /// The two formulas joined by it.
    pub(crate) fn joined(self, alloc: Global, a: Formula, b: Formula) -> Result<Formula, AllocError>
        ensures { IfOk result (λ f. f ≡ joined self a b) }
    {
        match self {
            Operator::And => Formula::and(alloc, a, b),
            Operator::Or => Formula::or(alloc, a, b),
            Operator::Implies => Formula::implies(alloc, a, b),
        }
    }
}

impl Quantifier {
    /// The name bound by it in the body.
    pub(crate) fn over(
        self,
        alloc: Global,
        name: Name,
        body: Formula,
    ) -> Result<Formula, AllocError>
        ensures { IfOk result (λ f. f ≡ quantified self name body) }
    {
        match self {
            Quantifier::All => Formula::all(alloc, name, body),
            Quantifier::Exists => Formula::exists(alloc, name, body),
        }
    }
}
