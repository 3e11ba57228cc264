//! Reports.
ghost use Rattle.std.specs.Prelude.{◌≡◌};

use crate::element::element_at;
use crate::list::Piece;
use crate::tag::tag_at;
use crate::taken::Taken;
use crate::text::text_at;
use report_markup::Report;
use std::alloc::{AllocError, Global};

impl Piece for Report {
    ghost use Rattle.std.specs.Prelude.{[], ◌∷◌};
    ghost use Rattle.yxml.specs.Spelling.{yxml};
    ghost use Rattle.report_markup.specs.Element.{element};
    ghost use Rattle.reply_messages.specs.Fits.{FitsReport};

    ghost spelling = { λ report. yxml (element report ∷ []) };

    ghost fits = { FitsReport };

    fn take(alloc: Global, text: &[u8]) -> Result<Option<Taken<Report>>, AllocError> {
        let Some(element) = element_at(text) else {
            return Ok(None);
        };
        let length = text.len() - element.rest.len();
        let Some(tag) = tag_at(alloc, element.tag)? else {
            return Ok(None);
        };
        let Some(text) = text_at(alloc, element.text)? else {
            return Ok(None);
        };
        let value = Report {
            range: tag.range,
            kind: tag.kind,
            properties: tag.properties,
            text,
        };
        Ok(Some(Taken { value, length }))
    }
}
