//! Making an edit.
ghost use Rattle.std.specs.Prelude.{◌≡◌, ◌≢◌, ℕ, ◌↔◌, ◌+◌, ◌≤◌, length, take, drop, Err, OnOk, OnErr, IfOk, MatchOption};
ghost use Rattle.text_edits.specs.declared.edit.Edit.{Edit};
ghost use Rattle.text_edits.specs.declared.fault.EditFault.{EditFault};
ghost use Rattle.text_edits.specs.Edits.{Applies, PutsIn, IsInsert};
ghost use Rattle.text_edits.specs.Faults.{DifferFirst, IsOutOfRange, DiffersAt};

use crate::edit::Edit;
use crate::fault::EditFault;
use crate::text::Text;

/// The first place at which two lists of one length differ.
fn first_difference(scalars: &[char], others: &[char]) -> Option<usize>
    requires { length scalars.now ≡ length others.now }
    ensures { MatchOption result (scalars.now ≡ others.now)
        (λ k. DifferFirst scalars.now others.now k) }
{
    for (k, scalar) in scalars.iter().enumerate() {
        if *scalar != others[k] {
            return Some(k);
        }
    }
    None
}

/// Puts the scalars in at the place, where the text reaches it.
fn insert(text: &mut Text, start: usize, inserted: &Text) -> Result<(), EditFault>
    ensures applied { OnOk result (PutsIn start inserted.now text.old text.new) }
    ensures out_of_range { (at len : ℕ) → (result ≡ Err (EditFault.OutOfRange at len))
        ↔ IsOutOfRange (Edit.Insert start inserted.now) text.old at len }
    ensures differs { (at : ℕ) → result ≢ Err (EditFault.Differs at) }
    ensures unchanged { OnErr result (text.new ≡ text.old) }
{
    let len = text.len();
    if len < start {
        return Err(EditFault::OutOfRange { start, len });
    }
    text.insert(start, inserted.as_slice())?;
    Ok(())
}

/// Where what is removed at the place ends, where the text has it.
pub fn removed_stop(text: &Text, start: usize, removed: &Text) -> Result<usize, EditFault>
    ensures stands { IfOk result (λ stop. (stop ≡ start + length removed.now)
        × (stop ≤ length text.now)
        × (take (length removed.now) (drop start text.now) ≡ removed.now)) }
    ensures out_of_range { (at len : ℕ) → (result ≡ Err (EditFault.OutOfRange at len))
        ↔ IsOutOfRange (Edit.Remove start removed.now) text.now at len }
    ensures differs { (at : ℕ) → (result ≡ Err (EditFault.Differs at))
        ↔ DiffersAt (Edit.Remove start removed.now) text.now at }
    ensures no_memory { result ≢ Err EditFault.NoMemory }
{
    let len = text.len();
    let count = removed.len();
    if len < start || len - start < count {
        return Err(EditFault::OutOfRange { start, len });
    }
    let standing = &text.as_slice()[start..start + count];
    if let Some(k) = first_difference(standing, removed.as_slice()) {
        return Err(EditFault::Differs { at: start + k });
    }
    Ok(start + count)
}

/// Takes the scalars out at the place, where the text has them.
fn remove(text: &mut Text, start: usize, removed: &Text) -> Result<(), EditFault>
    ensures applied { OnOk result (PutsIn start removed.now text.new text.old) }
    ensures out_of_range { (at len : ℕ) → (result ≡ Err (EditFault.OutOfRange at len))
        ↔ IsOutOfRange (Edit.Remove start removed.now) text.old at len }
    ensures differs { (at : ℕ) → (result ≡ Err (EditFault.Differs at))
        ↔ DiffersAt (Edit.Remove start removed.now) text.old at }
    ensures no_memory { result ≢ Err EditFault.NoMemory }
    ensures unchanged { OnErr result (text.new ≡ text.old) }
{
    match removed_stop(text, start, removed) {
        Ok(stop) => {
            text.remove(start, stop - start);
            Ok(())
        }
        Err(fault) => Err(fault),
    }
}

/// Makes the edit in the text. `OutOfRange` is tried first, then `Differs`, then memory, which a
/// remove does not need; at each of them the text is as it was.
pub fn apply(text: &mut Text, edit: &Edit) -> Result<(), EditFault>
    ensures applied { OnOk result (Applies edit.now text.old text.new) }
    ensures out_of_range { (start len : ℕ) → (result ≡ Err (EditFault.OutOfRange start len))
        ↔ IsOutOfRange edit.now text.old start len }
    ensures differs { (at : ℕ) → (result ≡ Err (EditFault.Differs at))
        ↔ DiffersAt edit.now text.old at }
    ensures no_memory { result ≡ Err EditFault.NoMemory → IsInsert edit.now }
    ensures unchanged { OnErr result (text.new ≡ text.old) }
{
    match edit {
        Edit::Insert {
            start,
            text: inserted,
        } => insert(text, *start, inserted),
        Edit::Remove {
            start,
            text: removed,
        } => remove(text, *start, removed),
    }
}
