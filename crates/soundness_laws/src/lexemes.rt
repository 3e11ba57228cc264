//! The tokens of what is written.
ghost use Rattle.std.specs.Prelude.{◌≡◌, ℕ, Bool, List, []};
ghost use Rattle.outer_syntax.specs.Lexing.{tokens_under};
ghost use Rattle.soundness_laws.specs.Lexemes.{Lexeme, text_of, Fitting, tokens_of};

/// A text that is written of lexemes, each before what it fits, has them as its tokens, whatever
/// names are commands.
pub fn written_tokens()
    ensures { (is_command : List ℕ → Bool) (lexemes : List Lexeme) → Fitting lexemes []
        → tokens_under (λ _. is_command) (text_of lexemes) ≡ tokens_of is_command 0 lexemes }
{}
