//! Texts of suggested proofs.
ghost use Rattle.std.specs.Prelude.{◌≡◌, ℕ, [], List, Some};
ghost use Rattle.std.specs.List.{AllByRecursion};
ghost use Rattle.nj_formula.specs.declared.formula.Formula.{Formula};
ghost use Rattle.nj_formula.specs.Meaning.{meaning};
ghost use Rattle.nj_syntax.specs.Readable.{IsReadable};
ghost use Rattle.theory_ctx.specs.declared.local.Local.{Local};
ghost use Rattle.theory_ctx.specs.Locals.{Scoped};
ghost use Rattle.proof_terms.specs.declared.term.Term.{Term};
ghost use Rattle.proof_checks.specs.Checks.{checked};
ghost use Rattle.suggest_rules.specs.Search.{suggested};
ghost use Rattle.suggest_rules.specs.TermText.{by_text};
ghost use Rattle.soundness_laws.specs.Insertion.{IsCommandText};
ghost use Rattle.soundness_laws.specs.Alike.{IsAlike, SayAlike};
ghost use Rattle.soundness_laws.specs.Citable.{IsCitable};
ghost use Rattle.soundness_laws.specs.ProofTexts.{IsProofText};

/// The text of a proof that is suggested for a readable goal, where what it may cite can be
/// written, is one command by itself: under the aliases, and under the language's own names alone.
pub fn suggested_command()
    ensures aliased { (goal : Formula) (locals : List Local) (aliases : List (List ℕ)) (t : Term)
        → IsReadable goal → AllByRecursion (IsCitable aliases) locals
        → suggested goal locals aliases ≡ Some t → IsCommandText aliases (by_text t) }
    ensures bare { (goal : Formula) (locals : List Local) (aliases : List (List ℕ)) (t : Term)
        → IsReadable goal → AllByRecursion (IsCitable aliases) locals
        → suggested goal locals aliases ≡ Some t → IsCommandText [] (by_text t) }
{}

/// Terms that say the same have the same answer, for goals that say the same, where the local facts
/// say the same.
pub fn alike_terms()
    ensures { (t u : Term) (goal other : Formula) (scope : Scoped) (locals : List Local)
        → IsAlike t u → meaning goal ≡ meaning other → SayAlike scope.locals locals
        → checked t goal scope ≡ checked u other (record scope { locals = locals }) }
{}

/// The text of a proof that is suggested for a readable goal, where what it may cite can be
/// written, is read as a proof of the goal.
pub fn suggested_proof()
    ensures { (goal : Formula) (scope : Scoped) (aliases : List (List ℕ)) (t : Term)
        → IsReadable goal → AllByRecursion (IsCitable aliases) scope.locals
        → suggested goal scope.locals aliases ≡ Some t
        → IsProofText aliases goal scope (by_text t) }
{
    nj_suggest::suggestion_law();
}
