//! What holds of what is suggested.

ghost use Rattle.std.specs.Prelude.{◌≡◌, ℕ, List, Some, IsOk};
ghost use Rattle.std.specs.List.{AllByRecursion};
ghost use Rattle.nj_formula.specs.declared.formula.Formula.{Formula};
ghost use Rattle.theory_ctx.specs.declared.local.Local.{Local};
ghost use Rattle.theory_ctx.specs.Locals.{Scoped};
ghost use Rattle.proof_terms.specs.declared.term.Term.{Term};
ghost use Rattle.proof_checks.specs.Checks.{checked};
ghost use Rattle.suggest_rules.specs.Search.{suggested};
ghost use Rattle.nj_suggest.specs.Plain.{IsPlain};

/// A law: a proof that is suggested for a goal is a proof of it, in each scope with these local
/// facts, whatever its theory sees, where no local fact has a name of several parts.
pub fn suggestion_law()
    ensures { (goal : Formula) (scope : Scoped) (aliases : List (List ℕ)) (t : Term)
        → AllByRecursion IsPlain scope.locals → suggested goal scope.locals aliases ≡ Some t
        → IsOk (checked t goal scope) }
{}
