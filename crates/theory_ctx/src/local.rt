ghost use Rattle.std.specs.Prelude.{◌≡◌, None};
ghost use Rattle.theory_ctx.specs.Answers.{told_answer, found};

use crate::lookup::Lookup;
use nj_formula::{Formula, Name};

/// A local fact: an assumption of a term, or a fact of a block. It belongs to no theory.
#[derive(Debug, Drop)]
pub struct Local {
    pub name: Name,
    pub formula: Formula,
}

impl Local {
    pub(crate) fn found(&self) -> Lookup<'_>
        ensures { told_answer result ≡ found None self.now.name self.now.formula }
    {
        Lookup::Found {
            theory: None,
            name: &self.name,
            formula: &self.formula,
        }
    }
}
