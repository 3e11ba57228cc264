//! What holds of every update.

ghost use Rattle.std.specs.Prelude.{◌≡◌, ◌↔◌, ℕ, List, length, map, Ok};
ghost use Rattle.text_edits.specs.declared.edit.Edit.{Edit};
ghost use Rattle.text_edits.specs.Edits.{AppliesList};
ghost use Rattle.buffer_rules.specs.Texts.{edit_all};
ghost use Rattle.buffer_rules.specs.Numbers.{Command, kept_runs, ids_of, IsLongestKept, IsNumbered};
ghost use Rattle.buffer_rules.specs.Worked.{AChangedText, AnOpenComment, EqualCommands, TwoNodes, AnAlias};
ghost use Rattle.buffer_rules.specs.Refused.{ItemsRefused, BlobsRefused, TooManyVersions, Perspectives, ALoad};

/// What updates of small documents make, computed.
pub fn worked_examples()
    ensures changed_text { AChangedText }
    ensures open_comment { AnOpenComment }
    ensures equal_commands { EqualCommands }
    ensures two_nodes { TwoNodes }
    ensures alias { AnAlias }
    ensures items_refused { ItemsRefused }
    ensures blobs_refused { BlobsRefused }
    ensures too_many_versions { TooManyVersions }
    ensures perspectives { Perspectives }
    ensures load { ALoad }
{}

/// The commands that keep their ids are the longest front of equal sources, and then the longest
/// back of what is left.
pub fn kept_law()
    ensures { (before now : List (List ℕ)) → IsLongestKept before now (kept_runs before now) }
{}

/// Commands that keep their ids have those that they had; the others have the next ones, in the
/// order of their places.
pub fn ids_law()
    ensures { (before : List Command) (now : List (List ℕ)) (next : ℕ) → IsNumbered
        (kept_runs (map (λ c. c.1) before) now) (map (λ c. c.0) before) (length now) next
        (ids_of before now next) }
{}

/// Edits that are not refused make of a text just what they say.
pub fn edits_law()
    ensures { (edits : List Edit) (text after : List ℕ)
        → (edit_all edits text ≡ Ok after) ↔ AppliesList edits text after }
{}
