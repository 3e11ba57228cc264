//! Laws over definitions alone.

ghost use Rattle.std.specs.Prelude.{◌≡◌, ◌↔◌, ℕ, List, [], Ok, IsTrue};
ghost use Rattle.nj_formula.specs.declared.formula.Formula.{Formula};
ghost use Rattle.nj_formula.specs.Meaning.{meaning};
ghost use Rattle.theory_ctx.specs.Facts.{Fact};
ghost use Rattle.proof_state.specs.declared.levels.Levels.{Levels};
ghost use Rattle.proof_state.specs.declared.levels.Levels.TheVariants.{Closed, Prove};
ghost use Rattle.proof_state.specs.Same.{says_same};
ghost use Rattle.proof_state.specs.Describes.{Describes};
ghost use Rattle.proof_state.specs.Steps.{Command, step};
ghost use Rattle.proof_state.specs.Follows.{Follows, IsFact};
ghost use Rattle.proof_state.specs.Worth.{IsWorth};
ghost use Rattle.proof_state.specs.Runs.{IsJustified, IsProof};

/// A law: the test says yes just where two formulas say the same.
pub fn same_law()
    ensures { (f g : Formula) → IsTrue (says_same f g) ↔ (meaning f ≡ meaning g) }
{}

/// A law: a proof begins worth its goal, each justified command that is accepted keeps it so, and
/// once the goal is closed, it follows from the facts of the context.
pub fn kept_law()
    ensures begins { (facts : List Fact) (goal : Formula) → IsWorth facts goal (Prove goal []) }
    ensures kept { (facts : List Fact) (goal : Formula) (command : Command) (old new : Levels)
        → ∥ IsWorth facts goal old ∥₁ → IsJustified facts command old → step command old ≡ Ok new
        → ∥ IsWorth facts goal new ∥₁ }
    ensures ends { (facts : List Fact) (goal : Formula) → ∥ IsWorth facts goal Closed ∥₁
        → ∥ Follows (IsFact facts) (meaning goal) ∥₁ }
{}

/// A law: where commands are accepted that close the goal of the start, and each goal that `by`
/// closed follows from facts that could be cited there, the goal of the start follows from facts of
/// the context.
pub fn worth_law()
    ensures { (facts : List Fact) (goal : Formula) (commands : List Command)
        → IsProof facts commands (Prove goal [])
        → ∥ Follows (IsFact facts) (meaning goal) ∥₁ }
{}

/// A law: levels have a print, and no other one.
pub fn one_description()
    ensures some { (levels : Levels) → (text : List ℕ) × Describes levels text }
    ensures no_other { (levels : Levels) (text other : List ℕ)
        → Describes levels text → Describes levels other → text ≡ other }
{}
