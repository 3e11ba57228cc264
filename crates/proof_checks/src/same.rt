ghost use Rattle.std.specs.Prelude.{◌≡◌};
ghost use Rattle.nj_formula.specs.Meaning.{meaning};
ghost use Rattle.proof_checks.specs.Statements.{is_same};

use nj_formula::Formula;

/// Whether the formulas are equal up to bound names.
pub(crate) fn is_same(one: &Formula, other: &Formula) -> bool
    ensures { result ≡ is_same (meaning one.now) (meaning other.now) }
{
    one.same(other)
}
