ghost use Rattle.std.specs.Prelude.{◌≡◌, [], ◌∷◌, MatchOption};
ghost use Rattle.std.specs.List.{slice_split};
ghost use Rattle.yxml.specs.Reading.{is_x, is_y};
ghost use Rattle.yxml.specs.Cut.{IsCut};

/// The first chunk of a text, and what follows the byte 5 behind it, if there is one.
pub(crate) fn cut_at_x(text: &str) -> Option<(&str, &str)>
    ensures { MatchOption result (slice_split is_x text.now ≡ text.now ∷ [])
        (λ cut. IsCut is_x text.now cut.0.now cut.1.now) }
{
    text.split_once('\u{5}')
}

/// The first piece of a chunk, and what follows the byte 6 behind it, if there is one.
pub(crate) fn cut_at_y(text: &str) -> Option<(&str, &str)>
    ensures { MatchOption result (slice_split is_y text.now ≡ text.now ∷ [])
        (λ cut. IsCut is_y text.now cut.0.now cut.1.now) }
{
    text.split_once('\u{6}')
}
