//! Laws over definitions alone.

ghost use Rattle.std.specs.Prelude.{◌≡◌, ◌↔◌, ℕ, List, [], ◌∷◌, false, IsTrue};
ghost use Rattle.nj_formula.specs.declared.argument.Argument.{Argument};
ghost use Rattle.nj_formula.specs.declared.formula.Formula.{Formula};
ghost use Rattle.nj_formula.specs.Statement.{Statement};
ghost use Rattle.nj_formula.specs.Meaning.{meaning};
ghost use Rattle.nj_formula.specs.Free.{is_free};
ghost use Rattle.nj_formula.specs.Closed.{is_closed};
ghost use Rattle.nj_formula.specs.Instance.{instance};
ghost use Rattle.nj_formula.specs.FormulaInstance.{formula_instance};
ghost use Rattle.nj_formula.specs.Truth.{Assignment, renamed, point, truth};

use crate::structure::Structure;

/// A law: what an instance of a formula says is the instance of what the formula says.
pub fn instance_law()
    ensures { (t : Argument) (f : Formula)
        → meaning (formula_instance t f) ≡ instance t (meaning f) }
{}

/// A law: an instance is true just where the body is true of the term's point.
pub fn substitution_law<S: Structure>()
    ensures { (v : Assignment S.Point) (t : Argument) (p : Statement) → IsTrue (is_closed t)
        → truth S.apply S.holds v [] (instance t p)
        ↔ truth S.apply S.holds v (point S.apply v [] t ∷ []) p }
{}

/// A law: what a name is does not matter where it is not free.
pub fn absent_name_law<S: Structure>()
    ensures { (v : Assignment S.Point) (x : List ℕ) (d : S.Point) (s : Statement)
        → is_free x s ≡ false
        → truth S.apply S.holds v [] s ↔ truth S.apply S.holds (renamed v x d) [] s }
{}
