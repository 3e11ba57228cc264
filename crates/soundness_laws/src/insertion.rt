//! The law.
ghost use Rattle.std.specs.Prelude.{◌≡◌, ◌+◌, ◌∷◌, ◌++◌, ℕ, List, [], Some, take, drop, slice_get};
ghost use Rattle.pide_base.specs.declared.range.Range.{Range};
ghost use Rattle.text_edits.specs.Edits.{Applies};
ghost use Rattle.text_edits.specs.declared.edit.Edit.TheVariants.{Insert};
ghost use Rattle.outer_syntax.specs.Reading.{header_in};
ghost use Rattle.buffer_rules.specs.Cuts.{command_ranges};
ghost use Rattle.soundness_laws.specs.Insertion.{IsCommandText, IsUnbroken, sources_in};

/// A command that is put in behind another, with a space before and behind it, where the last token
/// of the one before is no error: the text's commands are the old ones with the new one behind it,
/// and its header is the old one.
pub fn insertion_law()
    ensures commands { (text : List ℕ) (names : List (List ℕ)) (k : ℕ) (r : Range) (w new : List ℕ)
        → slice_get (command_ranges text names) k ≡ Some r → IsUnbroken text names r.stop
        → IsCommandText names w → IsCommandText [] w
        → Applies (Insert r.stop (32 ∷ (w ++ 32 ∷ []))) text new
        → sources_in new names
        ≡ take (k + 1) (sources_in text names) ++ w ∷ drop (k + 1) (sources_in text names) }
    ensures header { (text : List ℕ) (names : List (List ℕ)) (k : ℕ) (r : Range) (w new : List ℕ)
        → slice_get (command_ranges text names) k ≡ Some r → IsUnbroken text names r.stop
        → IsCommandText names w → IsCommandText [] w
        → Applies (Insert r.stop (32 ∷ (w ++ 32 ∷ []))) text new
        → header_in new ≡ header_in text }
{}
