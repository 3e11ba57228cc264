//! What holds of the tokens of every text.

ghost use Rattle.std.specs.Prelude.{◌≡◌, ◌↔◌, ℕ, Bool, List, All};
ghost use Rattle.std.specs.List.{flat_map};
ghost use Rattle.outer_syntax.specs.Symbols.{IsInside};
ghost use Rattle.outer_syntax.specs.Tokens.{text_of, AreTokensUnder};
ghost use Rattle.outer_syntax.specs.Headings.{AreTokens};
ghost use Rattle.outer_syntax.specs.Lexing.{tokens_under, tokens_of};
ghost use Rattle.outer_syntax.specs.declared.token.Token.{Token};

/// Each text has one list of tokens under the aliases, and under names that go by the place; it
/// joins to the text.
pub fn one_list()
    ensures just { (text : List ℕ) (aliases : List (List ℕ)) (tokens : List Token) →
        AreTokens text aliases tokens ↔ (tokens ≡ tokens_of text aliases) }
    ensures under { (names : ℕ → List ℕ → Bool) (text : List ℕ) (tokens : List Token) →
        AreTokensUnder names text tokens ↔ (tokens ≡ tokens_under names text) }
    ensures joins { (text : List ℕ) (aliases : List (List ℕ)) (tokens : List Token) →
        AreTokens text aliases tokens → flat_map (text_of text) tokens ≡ text }
{}

/// A place where a token begins or ends is never inside of a symbol.
pub fn symbol_law()
    ensures { (text : List ℕ) (aliases : List (List ℕ)) (tokens : List Token) →
        AreTokens text aliases tokens → (symbol : ℕ) → All (λ t.
        (IsInside text symbol t.range.start → ⊥) × (IsInside text symbol t.range.stop → ⊥)) tokens }
{}
