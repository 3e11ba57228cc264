//! What an item makes of a node.
ghost use Rattle.std.specs.Prelude.{◌≡◌, ◌++◌, length, map, filter, not, Some, None, IfOk};
ghost use Rattle.std.specs.List.{list_any};
ghost use Rattle.shared_map.specs.Pairs.{Each};
ghost use Rattle.command_spans.specs.CutTexts.{AreCutsOf};
ghost use Rattle.buffer_rules.specs.Sheets.{is_empty, is_outside, sheet_after};
ghost use Rattle.editor_buffer.specs.Telling.{Tells};
ghost use Rattle.editor_buffer.specs.Within.{AreWithin};

use crate::editing::{EditedText, Held, edited};
use crate::fault::PrepareError;
use crate::open_node::{OpenNode, shared};
use buffer_rules::Sheet;
use command_spans::Spans;
use doc_nodes::Shared;
use joined_results::both;
use message_values::{Perspective, Refusal};
use pide_base::Range;
use sqlite_items::Items;
use std::alloc::{AllocError, Global};
use text_edits::{Edit, Text};

/// Those of the ranges that are not empty.
fn filled(alloc: Global, ranges: &[Range]) -> Result<Items<Range>, AllocError>
    ensures { IfOk result (λ kept. kept ≡ filter (λ r. not (is_empty r)) ranges.now) }
{
    let mut kept = Items::new(alloc);
    let mut rest = ranges;
    'each: while let [range, more @ ..] = rest {
        if range.start != range.stop {
            kept.push(*range)?;
        }
        rest = more;
    }
    Ok(kept)
}

/// Whether a range begins above its end, or ends above the text's.
fn has_outside(ranges: &[Range], len: usize) -> bool
    ensures value { result ≡ list_any (is_outside len) ranges.now }
{
    let mut rest = ranges;
    'each: while let [range, more @ ..] = rest {
        if range.stop < range.start || len < range.stop {
            return true;
        }
        rest = more;
    }
    false
}

/// The node of this text, of its spans and of this perspective.
#[tactic(auto, using(crate::proofs::SheetLemmas::whole_so))]
fn node_of(
    alloc: Global,
    text: Shared<Text>,
    spans: Shared<Spans>,
    required: bool,
    ranges: Items<Range>,
) -> Result<OpenNode, AllocError>
    requires cut { AreCutsOf text spans }
    requires ranges { AreWithin (length text) ranges }
    ensures { IfOk result (λ node. node ≡ record {
      sheet = record { text = text; required = required; ranges = ranges };
      cut_under = None;
    }) }
{
    let ranges = shared(alloc, ranges)?;
    let sheet = Sheet {
        text,
        required,
        ranges,
    };
    Ok(OpenNode::uncut(sheet, spans))
}

impl OpenNode {
    /// The node after the edits, under a perspective that is told.
    #[tactic(auto, using(crate::proofs::SheetLemmas::shown_steps))]
    fn shown(
        &self,
        alloc: Global,
        edits: &[Edit],
        told: &Perspective,
    ) -> Result<OpenNode, PrepareError>
        ensures node { Tells (λ node. node.sheet) result
            (sheet_after edits.now (Some told.now) self.now.sheet) }
        ensures uncut { IfOk result (λ node. node.cut_under ≡ None) }
    {
        let old = EditedText {
            text: Held::Lent(&self.sheet().text),
            spans: self.spans().copy()?,
            ranges: Vec::new(alloc),
        };
        let made = edited(alloc, old, edits)?;
        drop(made.ranges);
        let (text, ranges) = both(
            made.text.share(alloc),
            Items::from_slice(alloc, told.ranges.as_slice()),
        )?;
        if has_outside(told.ranges.as_slice(), text.get().len()) {
            drop(text);
            drop(ranges);
            drop(made.spans);
            return Err(PrepareError::Refused(Refusal::PerspectiveOutOfRange));
        }
        let node = node_of(alloc, text, made.spans, told.required, ranges)?;
        Ok(node)
    }

    /// The node after the edits, under what they make of its perspective.
    #[tactic(auto, using(crate::proofs::SheetLemmas::moved_steps))]
    fn moved(&self, alloc: Global, edits: &[Edit]) -> Result<OpenNode, PrepareError>
        ensures node { Tells (λ node. node.sheet) result
            (sheet_after edits.now None self.now.sheet) }
        ensures uncut { IfOk result (λ node. node.cut_under ≡ None) }
    {
        let (spans, ranges) = both(
            self.spans().copy(),
            Vec::from_slice(alloc, self.sheet().ranges.get().as_slice()),
        )?;
        let old = EditedText {
            text: Held::Lent(&self.sheet().text),
            spans,
            ranges,
        };
        let made = edited(alloc, old, edits)?;
        let (text, ranges) = both(made.text.share(alloc), filled(alloc, &made.ranges))?;
        drop(made.ranges);
        let required = self.sheet().required;
        let node = node_of(alloc, text, made.spans, required, ranges)?;
        Ok(node)
    }

    /// The node after an item's edits, one after the other, and then its perspective, if it tells
    /// one; else the node's ranges are moved by the edits, and those that are empty then are left
    /// out. `EditOutOfRange` and `RemoveDiffers` come with the first edit that can't be made,
    /// `PerspectiveOutOfRange` after the edits. Its commands have to be cut then.
    pub fn edited(
        &self,
        alloc: Global,
        edits: &[Edit],
        told: &Option<Perspective>,
    ) -> Result<OpenNode, PrepareError>
        ensures node { Tells (λ node. node.sheet) result
            (sheet_after edits.now told.now self.now.sheet) }
        ensures uncut { IfOk result (λ node. node.cut_under ≡ None) }
    {
        match told {
            Some(told) => self.shown(alloc, edits, told),
            None => self.moved(alloc, edits),
        }
    }
}
