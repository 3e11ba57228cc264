//! What holds of the function and the relation.
ghost use Rattle.std.specs.Prelude.{◌≡◌, ◌↔◌, ℕ, [], List};
ghost use Rattle.nj_formula.specs.declared.formula.Formula.{Formula};
ghost use Rattle.nj_syntax.specs.Prints.{Prints};
ghost use Rattle.nj_syntax.specs.Printed.{text_in, formula_text};

/// A formula's text is its print, with the fewest parentheses, and nothing else is; so it is in
/// each place and under any printed names.
pub fn one_formula_text()
    ensures print { (f : Formula) (text : List ℕ) → Prints 10 [] f text ↔ (text ≡ formula_text f) }
    ensures placed { (place : ℕ) (names : List (List ℕ)) (f : Formula) (text : List ℕ)
        → Prints place names f text → text ≡ text_in place names f }
{}
