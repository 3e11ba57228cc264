//! The first chunk of a text, and the first piece of a chunk.
ghost use Rattle.std.specs.Prelude.{◌≡◌, [], ◌∷◌, MatchOption};
ghost use Rattle.std.specs.List.{slice_split};
ghost use Rattle.yxml.specs.Cut.{IsCut};
ghost use Rattle.yxml.specs.Reading.{is_y};
ghost use Rattle.message_values.specs.Chunks.{IsFirstChunk};

/// What stands before the first byte 5, and what follows that byte. Nothing follows a text that has
/// none.
pub(crate) fn first_chunk(text: &str) -> (&str, &str)
    ensures { IsFirstChunk text.now result.0.now result.1.now }
{
    match text.split_once('\u{5}') {
        Some(cut) => cut,
        None => (text, ""),
    }
}

/// The first piece of a chunk, and what follows the byte 6 behind it, if there is one.
pub(crate) fn first_piece(chunk: &str) -> Option<(&str, &str)>
    ensures { MatchOption result (slice_split is_y chunk.now ≡ chunk.now ∷ [])
        (λ cut. IsCut is_y chunk.now cut.0.now cut.1.now) }
{
    chunk.split_once('\u{6}')
}
