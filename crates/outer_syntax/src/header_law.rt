//! What holds of the header of every text.

ghost use Rattle.std.specs.Prelude.{◌≡◌, ◌⊎◌, ◌↔◌, ℕ, List, Some, None};
ghost use Rattle.outer_syntax.specs.Headers.{HasHeader, HasNoHeader};
ghost use Rattle.outer_syntax.specs.Reading.{header_in};
ghost use Rattle.outer_syntax.specs.declared.parts.Header.{Header};

/// Each text has one header or none, and not both: what the function tells.
pub fn one_header()
    ensures just { (text : List ℕ) (h : Header) → HasHeader text h ↔ (header_in text ≡ Some h) }
    ensures none { (text : List ℕ) → HasNoHeader text ↔ (header_in text ≡ None) }
    ensures either { (text : List ℕ) → HasNoHeader text ⊎ ((h : Header) × HasHeader text h) }
    ensures one { (text : List ℕ) (a b : Header) → HasHeader text a → HasHeader text b → a ≡ b }
    ensures apart { (text : List ℕ) (a : Header) → HasHeader text a → HasNoHeader text → ⊥ }
{}
