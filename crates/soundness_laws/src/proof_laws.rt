//! The law over the definitions alone.

ghost use Rattle.std.specs.Prelude.{◌≡◌, List, Ok};
ghost use Rattle.nj_formula.specs.declared.formula.Formula.{Formula};
ghost use Rattle.nj_formula.specs.Statement.{Statement};
ghost use Rattle.proof_terms.specs.declared.term.Term.{Term};
ghost use Rattle.proof_terms.specs.Reading.{deepest};
ghost use Rattle.theory_ctx.specs.Locals.{Scoped};
ghost use Rattle.proof_checks.specs.Checks.{checked};
ghost use Rattle.soundness_laws.specs.Proofs.{TermProves};
ghost use Rattle.soundness_laws.specs.Small.{SmallProofs};

/// A law: the check finds that a term proves a goal from these statements just where the term does
/// so by the rules, no more of them nested than are read.
pub fn proves_law()
    ensures sound { (t : Term) (goal : Formula) (scope : Scoped) (s : List Statement)
        → checked t goal scope ≡ Ok s → TermProves deepest scope t goal s }
    ensures complete { (t : Term) (goal : Formula) (scope : Scoped) (s : List Statement)
        → TermProves deepest scope t goal s → checked t goal scope ≡ Ok s }
{}

/// A law: `P & Q --> Q & P` is proved by three nested rules, and not where two are allowed; a term
/// that cites what isn't there, or says of all what a fact says of x, proves nothing.
pub fn small_law()
    ensures { SmallProofs }
{}
