//! The text of a node behind the edits that an editor has made since.
ghost use Rattle.std.specs.Prelude.{◌≡◌, ◌<◌, ◌≤◌, ◌^◌, ℕ, length, IfOk, OnOk};
ghost use Rattle.text_edits.specs.Offsets.{convert};
ghost use Rattle.buffer_rules.specs.Texts.{edit_once, edit_all};
ghost use Rattle.editor_buffer.specs.Telling.{Tells};
ghost use Rattle.session_replies.specs.Edited.{text_of, PlacesFit};

use buffer_rules::edits_law;
use editor_buffer::PrepareError;
use message_values::Refusal;
use std::alloc::{AllocError, Global};
use text_edits::{Edit, EditFault, Text, apply, places_stay_within};

/// A text as it was, which is lent, or changed by edits.
#[derive(Drop)]
pub enum Edited<'a> {
    Same(&'a [char]),
    Changed(Text),
}

impl Edited<'_> {
    /// Its scalars.
    pub fn scalars(&self) -> &[char]
        ensures { result.now ≡ text_of self.now }
    {
        match self {
            Edited::Same(text) => text,
            Edited::Changed(text) => text.as_slice(),
        }
    }
}

/// The text behind the edits, made one after the other. `EditOutOfRange` and `RemoveDiffers` come
/// with the first edit that the text does not take. It is copied once where there are edits.
pub fn edited_text<'a>(
    alloc: Global,
    text: &'a [char],
    edits: &[Edit],
) -> Result<Edited<'a>, PrepareError>
    ensures text { Tells (λ edited. text_of edited) result (edit_all edits.now text.now) }
    ensures fit { IfOk result (λ edited. PlacesFit edits.now text.now) }
{
    if edits.is_empty() {
        return Ok(Edited::Same(text));
    }
    let mut edited = Text::from_slice(alloc, text)?;
    edit_in_place(&mut edited, edits)?;
    Ok(Edited::Changed(edited))
}

/// Makes the edits in the text, one after the other, up to the first that it does not take.
fn edit_in_place(text: &mut Text, edits: &[Edit]) -> Result<(), PrepareError>
    ensures text { Tells (λ done. text.new) result (edit_all edits.now text.old) }
    ensures fit { OnOk result (PlacesFit edits.now text.old) }
{
    let mut rest = edits;
    'each: while let [edit, more @ ..] = rest {
        make(text, edit)?;
        rest = more;
    }
    Ok(())
}

/// Makes one edit in the text, unless the text does not take it.
fn make(text: &mut Text, edit: &Edit) -> Result<(), PrepareError>
    ensures text { Tells (λ done. text.new) result (edit_once edit.now text.old) }
    ensures within { OnOk result ((place : ℕ) → place ≤ length text.old
        → convert edit.now place ≤ length text.new) }
    ensures small { length text.new < 2 ^ 64 }
{
    edits_law();
    places_stay_within();
    let made = apply(text, edit);
    let _len = text.len();
    match made {
        Ok(()) => Ok(()),
        Err(EditFault::OutOfRange { .. }) => Err(PrepareError::Refused(Refusal::EditOutOfRange)),
        Err(EditFault::Differs { .. }) => Err(PrepareError::Refused(Refusal::RemoveDiffers)),
        Err(EditFault::NoMemory) => Err(PrepareError::NoMemory),
    }
}
