ghost use Rattle.std.specs.Prelude.{◌≡◌, List, map};
ghost use Rattle.nj_formula.specs.declared.argument.Argument.{Argument};
ghost use Rattle.nj_formula.specs.declared.formula.Formula.{Formula};
ghost use Rattle.nj_syntax.specs.Terms.{Deep};
ghost use Rattle.nj_syntax.specs.Answers.{IsFormula, IsTerm};
ghost use Rattle.nj_syntax.specs.Answer.{formula_of, term_of};
ghost use Rattle.nj_syntax.specs.Laws.{HasOneAnswer};

/// A law: the grammar is unambiguous. Tokens are at most one formula, in which each has one depth.
pub fn one_formula()
    ensures { (deep other : List Deep) (a b : Formula) → map (λ t. t.0) deep ≡ map (λ t. t.0) other
        → IsFormula deep a → IsFormula other b → (deep ≡ other) × (a ≡ b) }
{}

/// A law: tokens are at most one term, in which each has one depth.
pub fn one_term()
    ensures { (deep other : List Deep) (t u : Argument) → map (λ t. t.0) deep ≡ map (λ t. t.0) other
        → IsTerm deep t → IsTerm other u → (deep ≡ other) × (t ≡ u) }
{}

/// A law: each text has one answer, as a formula and as a term: what it is, its first place at
/// fault, or that it is too deep; and the functions give it.
pub fn one_answer()
    ensures formula { HasOneAnswer IsFormula formula_of }
    ensures term { HasOneAnswer IsTerm term_of }
{}
