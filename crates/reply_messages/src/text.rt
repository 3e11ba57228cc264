//! Texts of reports.
ghost use Rattle.std.specs.Prelude.{IfOk};
ghost use Rattle.reply_messages.specs.Fits.{IsPlainText};
ghost use Rattle.reply_messages.specs.Found.{Finds};

use report_markup::{PlainText, is_plain};
use std::alloc::{AllocError, Global};

/// The text of these bytes, or None where they are no UTF-8 or mark up.
pub(crate) fn text_at(alloc: Global, bytes: &[u8]) -> Result<Option<PlainText>, AllocError>
    ensures { IfOk result (λ found. Finds (λ text. text) IsPlainText bytes.now found) }
{
    let Ok(text) = str::from_utf8(bytes) else {
        return Ok(None);
    };
    if !is_plain(text) {
        return Ok(None);
    }
    Ok(Some(PlainText::from_str(alloc, text)?))
}
