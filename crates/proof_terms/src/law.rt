//! What holds of every proof term's text.

ghost use Rattle.std.specs.Prelude.{◌≡◌, ℕ, List, Result, Ok};
ghost use Rattle.std.specs.List.{AllByRecursion};
ghost use Rattle.outer_syntax.specs.declared.token.Token.{Token};
ghost use Rattle.proof_terms.specs.declared.fault.TermFault.{TermFault};
ghost use Rattle.proof_terms.specs.declared.mark.Mark.{Mark};
ghost use Rattle.proof_terms.specs.declared.term.Term.{Term};
ghost use Rattle.proof_terms.specs.Reading.{proof_of};
ghost use Rattle.proof_terms.specs.Answers.{Answers};
ghost use Rattle.proof_terms.specs.Cited.{cites_of, IsPlaceOf};
ghost use Rattle.proof_terms.specs.Marks.{marks};

/// A law: tokens are one term, or have one first fault, and not both; the function gives it.
pub fn one_answer()
    ensures has { (ms : List Mark) → Answers ms (proof_of ms) }
    ensures one { (ms : List Mark) (a : Result Term TermFault) → Answers ms a → a ≡ proof_of ms }
{}

/// A law: each name that a term cites stands on one of the tokens that the term was read from.
pub fn cited_on_tokens()
    ensures { (source : List ℕ) (tokens : List Token) (t : Term)
        → proof_of (marks source tokens) ≡ Ok t
        → AllByRecursion (λ c. IsPlaceOf tokens c.range) (cites_of t) }
{}
