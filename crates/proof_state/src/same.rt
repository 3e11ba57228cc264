ghost use Rattle.std.specs.Prelude.{◌≡◌};
ghost use Rattle.proof_state.specs.Same.{says_same};

use nj_formula::Formula;

/// Whether the formulas are equal up to bound names.
pub(crate) fn says_same(one: &Formula, other: &Formula) -> bool
    ensures { result ≡ says_same one.now other.now }
{
    one.same(other)
}
