//! Edits of a text, one after the other, with the ranges that they move.
ghost use Rattle.std.specs.Prelude.{◌≡◌, ◌↔◌, ◌<◌, ◌^◌, ℕ, length, map, IfOk, Err};
ghost use Rattle.shared_map.specs.Pairs.{Each};
ghost use Rattle.text_edits.specs.declared.fault.EditFault.{EditFault};
ghost use Rattle.text_edits.specs.Edits.{Applies};
ghost use Rattle.text_edits.specs.Faults.{IsOutOfRange, DiffersAt};
ghost use Rattle.text_edits.specs.Offsets.{convert};
ghost use Rattle.command_spans.specs.CutTexts.{AreCutsOf};
ghost use Rattle.buffer_rules.specs.Texts.{edit_once, edit_all};
ghost use Rattle.buffer_rules.specs.Sheets.{converted};
ghost use Rattle.editor_buffer.specs.Held.{text_of};
ghost use Rattle.editor_buffer.specs.Telling.{Tells};
ghost use Rattle.editor_buffer.specs.Within.{AreWithin, IsSmall, moved};

use crate::fault::PrepareError;
use crate::open_node::shared;
use buffer_rules::edits_law;
use command_spans::{Reparsed, Spans, reparse, reparse_in_place};
use doc_nodes::Shared;
use message_values::Refusal;
use pide_base::Range;
use std::alloc::{AllocError, Global};
use text_edits::{Edit, EditFault, Text, convert_range, places_stay_within};

/// A text of which edits are made: the sheet's, which is lent, until the first of them; then one in
/// memory of its own.
#[derive(Drop)]
pub(crate) enum Held<'a> {
    Lent(&'a Shared<Text>),
    Own(Text),
}

/// A text with its spans, and ranges in it: they are moved by its edits.
#[derive(Drop)]
pub(crate) struct EditedText<'a> {
    pub(crate) text: Held<'a>,
    pub(crate) spans: Shared<Spans>,
    pub(crate) ranges: Vec<Range>,
}

impl<'a> Held<'a> {
    /// The text in memory that can be shared. It is not copied.
    pub(crate) fn share(self, alloc: Global) -> Result<Shared<Text>, AllocError>
        ensures { IfOk result (λ shared. shared ≡ text_of self.entry) }
    {
        match self {
            Held::Lent(text) => text.copy(),
            Held::Own(text) => shared(alloc, text),
        }
    }
}

/// The text after the edit, with its spans under the aliases that they had. A text that is lent is
/// copied once; another stays in its memory.
#[tactic(auto, using(crate::proofs::SheetCuts::are_cuts))]
fn reparsed(alloc: Global, old: &Spans, text: Held<'_>, edit: &Edit) -> Result<Reparsed, EditFault>
    requires { AreCutsOf (text_of text) old.now }
    ensures text { IfOk result (λ r. Applies edit.now (text_of text.entry) r.text) }
    ensures cut { IfOk result (λ r. AreCutsOf r.text r.spans) }
    ensures out_of_range { (start len : ℕ) → (result ≡ Err (EditFault.OutOfRange start len))
        ↔ IsOutOfRange edit.now (text_of text.entry) start len }
    ensures differs { (at : ℕ) → (result ≡ Err (EditFault.Differs at))
        ↔ DiffersAt edit.now (text_of text.entry) at }
{
    match text {
        Held::Lent(text) => reparse(alloc, old, text.get(), edit, old.aliases()),
        Held::Own(text) => reparse_in_place(alloc, old, text, edit, old.aliases()),
    }
}

/// The same, or why the edit is refused.
#[tactic(auto, using(crate::proofs::KnownEditSteps::edit_steps))]
fn edited_once(
    alloc: Global,
    old: &Spans,
    text: Held<'_>,
    edit: &Edit,
) -> Result<Reparsed, PrepareError>
    requires { AreCutsOf (text_of text) old.now }
    ensures text { Tells (λ r. r.text) result (edit_once edit.now (text_of text.entry)) }
    ensures cut { IfOk result (λ r. AreCutsOf r.text r.spans) }
{
    edits_law();
    match reparsed(alloc, old, text, edit) {
        Ok(reparsed) => Ok(reparsed),
        Err(EditFault::OutOfRange { .. }) => Err(PrepareError::Refused(Refusal::EditOutOfRange)),
        Err(EditFault::Differs { .. }) => Err(PrepareError::Refused(Refusal::RemoveDiffers)),
        Err(EditFault::NoMemory) => Err(PrepareError::NoMemory),
    }
}

/// The ranges, moved by the edit.
fn moved_all(alloc: Global, ranges: &[Range], edit: &Edit) -> Result<Vec<Range>, AllocError>
    requires { Each (IsSmall edit.now) ranges.now }
    ensures { IfOk result (λ all. all.items ≡ map (moved edit.now) ranges.now) }
{
    let mut all = Vec::with_capacity(alloc, ranges.len())?;
    let mut rest = ranges;
    'each: while let [range, more @ ..] = rest {
        all.push(convert_range(edit, *range))?;
        rest = more;
    }
    Ok(all)
}

/// One edit: the text after it, and the ranges, moved.
fn step<'a>(alloc: Global, old: EditedText<'a>, edit: &Edit) -> Result<EditedText<'a>, PrepareError>
    requires cut { AreCutsOf (text_of old.text) old.spans }
    requires within { AreWithin (length (text_of old.text)) old.ranges.items }
    ensures text { Tells (λ made. text_of made.text) result
        (edit_once edit.now (text_of old.entry.text)) }
    ensures cut { IfOk result (λ made. AreCutsOf (text_of made.text) made.spans) }
    ensures ranges { IfOk result
        (λ made. made.ranges.items ≡ map (moved edit.now) old.entry.ranges.items) }
    ensures within { IfOk result
        (λ made. AreWithin (length (text_of made.text)) made.ranges.items) }
{
    places_stay_within();
    edits_law();
    let EditedText {
        text,
        spans,
        ranges,
    } = old;
    let made = edited_once(alloc, spans.get(), text, edit)?;
    drop(spans);
    let _len = made.text.len();
    let ranges = moved_all(alloc, &ranges, edit)?;
    Ok(EditedText {
        text: Held::Own(made.text),
        spans: shared(alloc, made.spans)?,
        ranges,
    })
}

/// The text after the edits, and the ranges, moved by all of them.
pub(crate) fn edited<'a>(
    alloc: Global,
    old: EditedText<'a>,
    edits: &[Edit],
) -> Result<EditedText<'a>, PrepareError>
    requires cut { AreCutsOf (text_of old.text) old.spans }
    requires within { AreWithin (length (text_of old.text)) old.ranges.items }
    ensures text { Tells (λ made. text_of made.text) result
        (edit_all edits.now (text_of old.entry.text)) }
    ensures cut { IfOk result (λ made. AreCutsOf (text_of made.text) made.spans) }
    ensures ranges { IfOk result
        (λ made. made.ranges.items ≡ map (converted edits.now) old.entry.ranges.items) }
    ensures within { IfOk result
        (λ made. AreWithin (length (text_of made.text)) made.ranges.items) }
{
    let mut made = old;
    let mut rest = edits;
    'each: while let [edit, more @ ..] = rest {
        made = step(alloc, made, edit)?;
        rest = more;
    }
    Ok(made)
}
