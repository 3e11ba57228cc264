use std::alloc::AllocError;

/// Why no formula, or no term, goes on at a place.
#[derive(Clone, Copy, Debug, PartialEq, Eq)]
pub enum FaultKind {
    /// No token begins there.
    Symbol,
    /// The text ends there.
    End,
    /// A token begins there with which nothing goes on.
    Expected,
}

/// Why a text is no formula, or no term.
#[derive(Clone, Copy, Debug, PartialEq, Eq)]
pub enum FormulaFault {
    /// The first place at fault, in scalars: where the token begins, or the text's length.
    At { pos: usize, kind: FaultKind },
    /// A token before the first place at fault stands under more than 200 operators, quantifiers
    /// and parentheses.
    TooDeep,
    /// There was no memory.
    NoMemory,
}

impl From<AllocError> for FormulaFault {
    ghost use Rattle.std.specs.Prelude.{◌≡◌};
    ghost use Rattle.nj_syntax.specs.declared.fault.FormulaFault.TheVariants.{NoMemory};

    ghost from_gives = { λ _ e. e ≡ NoMemory };

    fn from(_error: AllocError) -> FormulaFault {
        FormulaFault::NoMemory
    }
}
