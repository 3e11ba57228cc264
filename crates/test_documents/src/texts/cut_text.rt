//! Texts with their tokens and spans.
ghost use Rattle.command_spans.specs.CutTexts.{AreCutsOf};

use crate::shared::names_of;
use command_spans::{Reparsed, Spans, reparse, reparse_in_place};
use joined_results::both;
use sqlite_items::Items;
use std::alloc::{AllocError, Global};
use std::marker::Model;
use text_edits::{Edit, EditFault, Text};

/// A text with its tokens and spans.
#[derive(Drop)]
pub(crate) struct CutText {
    text: Text,
    spans: Spans,
}

impl Model for CutText {
    ghost use Rattle.command_spans.specs.CutTexts.{CutText, cut_text, AreCutsOf};

    ghost Value = { CutText };

    ghost view = { λ c. cut_text c.text c.spans };

    ghost invariant = { λ c. AreCutsOf c.text c.spans };
}

/// An edited text, and how many tokens the edit kept at the front and at the back.
#[derive(Drop)]
pub(crate) struct Found {
    pub(crate) cut: CutText,
    pub(crate) front: usize,
    pub(crate) back: usize,
}

fn with_cut(reparsed: Reparsed) -> Found
    requires { AreCutsOf reparsed.text reparsed.spans }
{
    Found {
        cut: CutText {
            text: reparsed.text,
            spans: reparsed.spans,
        },
        front: reparsed.front,
        back: reparsed.back,
    }
}

impl CutText {
    /// The text under the aliases.
    pub(crate) fn of(
        alloc: Global,
        text: Text,
        aliases: &[Items<char>],
    ) -> Result<CutText, AllocError> {
        let spans = Spans::of(alloc, text.as_slice(), aliases)?;
        Ok(CutText { text, spans })
    }

    pub(crate) fn text(&self) -> &Text {
        &self.text
    }

    pub(crate) fn spans(&self) -> &Spans {
        &self.spans
    }

    /// The text after the edit; this one stays.
    pub(crate) fn edited(
        &self,
        alloc: Global,
        edit: &Edit,
        aliases: &[Items<char>],
    ) -> Result<Found, EditFault> {
        Ok(with_cut(reparse(alloc, &self.spans, &self.text, edit, aliases)?))
    }

    /// The text after the edit, in the memory of this one.
    pub(crate) fn edited_in_place(
        self,
        alloc: Global,
        edit: &Edit,
        aliases: &[Items<char>],
    ) -> Result<Found, EditFault> {
        let CutText { text, spans } = self;
        Ok(with_cut(reparse_in_place(alloc, &spans, text, edit, aliases)?))
    }
}

/// The text under the aliases that a word lists.
pub(crate) fn cut(alloc: Global, text: &str, names: &str) -> Result<CutText, AllocError> {
    let (text, aliases) = both(Text::from_str(alloc, text), names_of(alloc, names))?;
    CutText::of(alloc, text, &aliases)
}
