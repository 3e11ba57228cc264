//! Laws over definitions alone.

ghost use Rattle.std.specs.Prelude.{◌≡◌, List, Ok};
ghost use Rattle.nj_formula.specs.declared.formula.Formula.{Formula};
ghost use Rattle.nj_formula.specs.Meaning.{meaning};
ghost use Rattle.nj_formula.specs.Statement.{Statement};
ghost use Rattle.nj_kernel.specs.Nj.{Nj};
ghost use Rattle.nj_kernel.specs.Sets.{members};
ghost use Rattle.proof_terms.specs.declared.term.Term.{Term};
ghost use Rattle.theory_ctx.specs.Locals.{Scoped};
ghost use Rattle.proof_checks.specs.Checks.{checked};
ghost use Rattle.proof_checks.specs.Scopes.{Stands};

/// A law: where a term is a proof, its goal is derived by natural deduction from what the proof
/// assumes, and each of that is said by a fact of the scope.
pub fn checks_law()
    ensures derives { (t : Term) (goal : Formula) (scope : Scoped) (s : List Statement)
        → checked t goal scope ≡ Ok s → Nj s (meaning goal) }
    ensures stands { (t : Term) (goal : Formula) (scope : Scoped) (s : List Statement)
        → checked t goal scope ≡ Ok s → (a : Statement) → members s a → Stands scope a }
{}
