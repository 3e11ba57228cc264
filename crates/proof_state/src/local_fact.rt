ghost use Rattle.std.specs.Prelude.{◌≡◌, IfOk};
ghost use Rattle.proof_state.specs.Blocks.{is_assumption};

use nj_formula::{Formula, Name, Shared};
use std::alloc::{AllocError, Global};

/// How a fact came into a block.
#[derive(Clone, Copy)]
pub(crate) enum Origin {
    /// By `assume`.
    Assumed,
    /// By a `have` that was closed.
    Proved,
}

/// An assumption or a fact of a block. Without a name it can't be cited, but it counts.
#[derive(Drop)]
pub(crate) struct LocalFact {
    pub(crate) origin: Origin,
    pub(crate) name: Option<Name>,
    pub(crate) formula: Shared<Formula>,
}

impl LocalFact {
    pub(crate) fn new(
        alloc: Global,
        origin: Origin,
        name: Option<Name>,
        formula: Formula,
    ) -> Result<LocalFact, AllocError>
        ensures { IfOk result (λ fact. fact
            ≡ record { origin = origin; name = name; formula = formula }) }
    {
        let formula = Shared::new(alloc, formula)?;
        Ok(LocalFact {
            origin,
            name,
            formula,
        })
    }

    /// Whether it was assumed.
    pub(crate) fn is_assumption(&self) -> bool
        ensures { result ≡ is_assumption self.now }
    {
        match self.origin {
            Origin::Assumed => true,
            Origin::Proved => false,
        }
    }
}
