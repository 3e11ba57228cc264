//! A node as the editor has it.
ghost use Rattle.std.specs.Prelude.{◌≡◌, ◌↔◌, length, map, Some, None, IsTrue, IfOk};
ghost use Rattle.std.specs.Option.{option_copied};
ghost use Rattle.command_spans.specs.CutTexts.{AreCutsOf, cut};
ghost use Rattle.buffer_rules.specs.Sheets.{blank};
ghost use Rattle.editor_buffer.specs.OpenSheet.{OpenSheet};
ghost use Rattle.editor_buffer.specs.Within.{AreWithin, IsWhole};

use buffer_rules::Sheet;
use command_spans::Spans;
use doc_nodes::{Aliases, Shared};
use joined_results::{both, each_of_three};
use sqlite_items::Items;
use std::alloc::{AllocError, Global};
use std::marker::Model;
use text_edits::Text;

/// A node as the editor has it: its sheet, the spans of its text, and the aliases under which the
/// commands of the version's node were cut from it. Where there are none they have to be cut.
#[derive(Drop)]
pub struct OpenNode {
    sheet: Sheet,
    spans: Shared<Spans>,
    cut_under: Option<Shared<Aliases>>,
}

impl Model for OpenNode {
    ghost use Rattle.editor_buffer.specs.OpenSheet.{OpenSheet};
    ghost use Rattle.editor_buffer.specs.Within.{IsWhole};

    ghost Value = { OpenSheet };

    ghost view = { λ opened. record { sheet = opened.sheet; cut_under = opened.cut_under } };

    ghost invariant = { λ opened. IsWhole opened.sheet opened.spans };
}

impl OpenNode {
    /// A node with an empty text, not required, nothing visible.
    pub fn blank(alloc: Global) -> Result<OpenNode, AllocError>
        ensures { IfOk result (λ opened. opened ≡ record { sheet = blank; cut_under = None }) }
    {
        let (spans, (text, ranges)) = both(
            shared_spans(alloc, &[], &[]),
            both(
                shared(alloc, Text::new(alloc)),
                shared(alloc, Items::new(alloc)),
            ),
        )?;
        Ok(OpenNode {
            sheet: Sheet {
                text,
                required: false,
                ranges,
            },
            spans,
            cut_under: None,
        })
    }

    /// The same node, in the same memory.
    pub fn copy(&self) -> Result<OpenNode, AllocError>
        ensures { IfOk result (λ opened. opened ≡ self.now) }
    {
        let (sheet, spans, cut_under) = each_of_three(
            copied(&self.sheet),
            self.spans.copy(),
            copied_aliases(&self.cut_under),
        )?;
        Ok(OpenNode {
            sheet,
            spans,
            cut_under,
        })
    }

    /// What the editor has of it.
    pub fn sheet(&self) -> &Sheet
        ensures { result.now ≡ self.now.sheet }
    {
        &self.sheet
    }

    /// The aliases under which its commands were cut.
    pub fn cut_under(&self) -> Option<&Shared<Aliases>>
        ensures { option_copied result ≡ self.now.cut_under }
    {
        self.cut_under.as_ref()
    }

    /// The spans of its text, under some aliases.
    pub(crate) fn spans(&self) -> &Shared<Spans>
        ensures cut { AreCutsOf self.now.sheet.text result.now }
        ensures ranges { AreWithin (length self.now.sheet.text) self.now.sheet.ranges }
    {
        &self.spans
    }

    /// The spans of its text under these aliases: those that it has, where they are under these.
    pub fn spans_under(&self, alloc: Global, aliases: &Aliases) -> Result<Shared<Spans>, AllocError>
        ensures { IfOk result
            (λ spans. spans ≡ cut self.now.sheet.text (map (λ pair. pair.0) aliases.now)) }
    {
        if same_names(self.spans.get().aliases(), aliases.names()) {
            return self.spans.copy();
        }
        let text = self.sheet.text.get().as_slice();
        shared_spans(alloc, text, aliases.names())
    }

    /// The same node, after its commands were cut under these aliases, with the spans that it has
    /// then.
    pub fn with_cut(
        &self,
        spans: Shared<Spans>,
        aliases: Shared<Aliases>,
    ) -> Result<OpenNode, AllocError>
        requires { AreCutsOf self.now.sheet.text spans }
        ensures { IfOk result (λ opened. opened ≡ record {
          sheet = self.now.sheet;
          cut_under = Some aliases;
        }) }
    {
        Ok(OpenNode {
            sheet: copied(&self.sheet)?,
            spans,
            cut_under: Some(aliases),
        })
    }

    /// A node of this sheet, whose commands have to be cut.
    pub(crate) fn uncut(sheet: Sheet, spans: Shared<Spans>) -> OpenNode
        requires { IsWhole sheet spans }
        ensures { result ≡ record { sheet = sheet; cut_under = None } }
    {
        OpenNode {
            sheet,
            spans,
            cut_under: None,
        }
    }
}

/// The value in memory that can be shared.
pub(crate) fn shared<T: Drop>(alloc: Global, value: T) -> Result<Shared<T>, AllocError>
    ensures { IfOk result (λ shared. shared ≡ value) }
{
    match Shared::new(alloc, value) {
        Ok(shared) => Ok(shared),
        Err(_) => Err(AllocError),
    }
}

/// The spans of a text under these names.
fn shared_spans(
    alloc: Global,
    text: &[char],
    names: &[Items<char>],
) -> Result<Shared<Spans>, AllocError>
    ensures { IfOk result (λ spans. spans ≡ cut text.now names.now) }
{
    let spans = Spans::of(alloc, text, names)?;
    shared(alloc, spans)
}

/// The same sheet, in the same memory.
fn copied(sheet: &Sheet) -> Result<Sheet, AllocError>
    ensures { IfOk result (λ copy. copy ≡ sheet.now) }
{
    let (text, ranges) = both(sheet.text.copy(), sheet.ranges.copy())?;
    Ok(Sheet {
        text,
        required: sheet.required,
        ranges,
    })
}

/// The same aliases, in the same memory, if there are some.
fn copied_aliases(aliases: &Option<Shared<Aliases>>) -> Result<Option<Shared<Aliases>>, AllocError>
    ensures { IfOk result (λ copy. copy ≡ aliases.now) }
{
    match aliases {
        Some(aliases) => Ok(Some(aliases.copy()?)),
        None => Ok(None),
    }
}

/// Whether both are the same name.
fn same_name(name: &Items<char>, other: &Items<char>) -> bool
    ensures { IsTrue result ↔ (name.now ≡ other.now) }
{
    name.as_slice() == other.as_slice()
}

/// Whether both lists have the same names in the same order.
pub fn same_names(names: &[Items<char>], others: &[Items<char>]) -> bool
    ensures { IsTrue result ↔ (names.now ≡ others.now) }
{
    if names.len() != others.len() {
        return false;
    }
    for (i, name) in names.iter().enumerate() {
        if !same_name(name, &others[i]) {
            return false;
        }
    }
    true
}
