//! Laws over the definitions, as contracts of functions that do nothing.
ghost use Rattle.std.specs.Prelude.{◌≡◌, ℕ, ◌≤◌, List, length};
ghost use Rattle.std.specs.List.{slice_get};
ghost use Rattle.text_edits.specs.declared.edit.Edit.{Edit};
ghost use Rattle.text_edits.specs.Edits.{Applies, AppliesList};
ghost use Rattle.text_edits.specs.Kept.{KeepsAt, KeepsAllAt};
ghost use Rattle.text_edits.specs.Offsets.{convert, revert, exchanged, convert_list, revert_list};

/// An edit turns a text into one text alone, and one text alone into a text.
pub fn one_result()
    ensures after { (edit : Edit) (text one other : List ℕ)
        → Applies edit text one → Applies edit text other → one ≡ other }
    ensures before { (edit : Edit) (text one other : List ℕ)
        → Applies edit one text → Applies edit other text → one ≡ other }
{}

/// What an edit keeps stands in the text after it at the converted place, and what it did not put
/// in stood in the text before it at the reverted place. Through a list of edits too.
pub fn a_kept_scalar_is_moved()
    ensures converted { (edit : Edit) (before after : List ℕ) (i : ℕ)
        → Applies edit before after → KeepsAt edit i
        → slice_get after (convert edit i) ≡ slice_get before i }
    ensures reverted { (edit : Edit) (before after : List ℕ) (i : ℕ)
        → Applies edit before after → KeepsAt (exchanged edit) i
        → slice_get before (revert edit i) ≡ slice_get after i }
    ensures through { (edits : List Edit) (before after : List ℕ) (i : ℕ)
        → AppliesList edits before after → KeepsAllAt edits i
        → slice_get after (convert_list edits i) ≡ slice_get before i }
{}

/// A place that edits keep is reverted to itself: for an insert each place, for a remove each place
/// below its start and from its end on.
pub fn revert_undoes_convert()
    ensures one { (edit : Edit) (i : ℕ) → KeepsAt edit i → revert edit (convert edit i) ≡ i }
    ensures through { (edits : List Edit) (i : ℕ) → KeepsAllAt edits i
        → revert_list edits (convert_list edits i) ≡ i }
{}

/// Places stay in order, through edits and back.
pub fn places_stay_in_order()
    ensures converted { (edit : Edit) (i j : ℕ) → i ≤ j → convert edit i ≤ convert edit j }
    ensures reverted { (edit : Edit) (i j : ℕ) → i ≤ j → revert edit i ≤ revert edit j }
    ensures through { (edits : List Edit) (i j : ℕ) → i ≤ j
        → convert_list edits i ≤ convert_list edits j }
    ensures back { (edits : List Edit) (i j : ℕ) → i ≤ j
        → revert_list edits i ≤ revert_list edits j }
{}

/// A place of the text before, its end among them, becomes a place of the text after.
pub fn places_stay_within()
    ensures converted { (edit : Edit) (before after : List ℕ) (i : ℕ)
        → Applies edit before after → i ≤ length before → convert edit i ≤ length after }
    ensures through { (edits : List Edit) (before after : List ℕ) (i : ℕ)
        → AppliesList edits before after → i ≤ length before
        → convert_list edits i ≤ length after }
{}
