//! The text after an edit, beside the one before it.
ghost use Rattle.std.specs.Prelude.{◌≡◌, ◌≢◌, ℕ, ◌↔◌, Err, IfOk};
ghost use Rattle.text_edits.specs.declared.edit.Edit.{Edit};
ghost use Rattle.text_edits.specs.declared.fault.EditFault.{EditFault};
ghost use Rattle.text_edits.specs.Edits.{Applies, PutsIn};
ghost use Rattle.text_edits.specs.Faults.{IsOutOfRange, DiffersAt};

use crate::change::removed_stop;
use crate::edit::Edit;
use crate::fault::EditFault;
use crate::text::Text;
use std::alloc::Global;

/// The text with the scalars put in at the place, where the text reaches it.
fn inserted(alloc: Global, text: &Text, start: usize, put: &Text) -> Result<Text, EditFault>
    ensures applied { IfOk result (λ after. PutsIn start put.now text.now after) }
    ensures out_of_range { (at len : ℕ) → (result ≡ Err (EditFault.OutOfRange at len))
        ↔ IsOutOfRange (Edit.Insert start put.now) text.now at len }
    ensures differs { (at : ℕ) → result ≢ Err (EditFault.Differs at) }
{
    let len = text.len();
    if len < start {
        return Err(EditFault::OutOfRange { start, len });
    }
    Ok(text.replaced(alloc, start, start, put.as_slice())?)
}

/// The text without the scalars at the place, where the text has them.
fn removed(alloc: Global, text: &Text, start: usize, taken: &Text) -> Result<Text, EditFault>
    ensures applied { IfOk result (λ after. PutsIn start taken.now after text.now) }
    ensures out_of_range { (at len : ℕ) → (result ≡ Err (EditFault.OutOfRange at len))
        ↔ IsOutOfRange (Edit.Remove start taken.now) text.now at len }
    ensures differs { (at : ℕ) → (result ≡ Err (EditFault.Differs at))
        ↔ DiffersAt (Edit.Remove start taken.now) text.now at }
{
    match removed_stop(text, start, taken) {
        Ok(stop) => Ok(text.replaced(alloc, start, stop, &[])?),
        Err(fault) => Err(fault),
    }
}

/// The text after the edit, in memory of its own; the scalars are copied once. `OutOfRange` is
/// tried first, then `Differs`, then memory.
pub fn changed(alloc: Global, text: &Text, edit: &Edit) -> Result<Text, EditFault>
    ensures applied { IfOk result (λ after. Applies edit.now text.now after) }
    ensures out_of_range { (start len : ℕ) → (result ≡ Err (EditFault.OutOfRange start len))
        ↔ IsOutOfRange edit.now text.now start len }
    ensures differs { (at : ℕ) → (result ≡ Err (EditFault.Differs at))
        ↔ DiffersAt edit.now text.now at }
{
    match edit {
        Edit::Insert { start, text: put } => inserted(alloc, text, *start, put),
        Edit::Remove { start, text: taken } => removed(alloc, text, *start, taken),
    }
}
