//! What holds of the spans of every text.

ghost use Rattle.std.specs.Prelude.{◌≡◌, ◌≤◌, ◌↔◌, ℕ, List};
ghost use Rattle.std.specs.List.{flat_map};
ghost use Rattle.text_words.specs.Pieces.{text_between};
ghost use Rattle.text_edits.specs.declared.edit.Edit.{Edit};
ghost use Rattle.text_edits.specs.Edits.{Applies};
ghost use Rattle.text_edits.specs.Offsets.{convert};
ghost use Rattle.outer_syntax.specs.declared.token.Token.{Token};
ghost use Rattle.command_spans.specs.Spans.{AreSpansOf, AreSpans};
ghost use Rattle.command_spans.specs.Cutting.{spans_of, spans_in};
ghost use Rattle.command_spans.specs.CutTexts.{CutText, tokens_in};
ghost use Rattle.command_spans.specs.Reparsing.{old_end_of, new_end_of, moved, front_of, back_of};
ghost use Rattle.command_spans.specs.Keeping.{KeepsTokens};
ghost use Rattle.command_spans.specs.declared.span.Span.{Span};

/// Each list of tokens, and so each text under the aliases, is cut into one list of spans, which
/// joins to the text.
pub fn one_list()
    ensures cut { (tokens : List Token) (spans : List Span) →
        AreSpansOf tokens spans ↔ (spans ≡ spans_of tokens) }
    ensures just { (text : List ℕ) (aliases : List (List ℕ)) (spans : List Span) →
        AreSpans text aliases spans ↔ (spans ≡ spans_in text aliases) }
    ensures joins { (text : List ℕ) (aliases : List (List ℕ)) (spans : List Span) →
        AreSpans text aliases spans →
        flat_map (λ s. text_between text s.range.start s.range.stop) spans ≡ text }
{}

/// What reparsing keeps: whatever the aliases before and after an edit, the first `front` tokens of
/// the edited text are the first ones of the text before, and its last `back` are the last ones,
/// moved as the edit converts their places; a word among them may be a command in one text alone.
pub fn kept_tokens()
    ensures kept { (edit : Edit) (old new : CutText) → Applies edit old.text new.text →
        KeepsTokens (old_end_of edit) (new_end_of edit) (front_of edit old) (back_of edit old new)
        (tokens_in old) (tokens_in new) }
    ensures converted { (edit : Edit) (place : ℕ) → old_end_of edit ≤ place →
        moved (old_end_of edit) (new_end_of edit) place ≡ convert edit place }
{}
