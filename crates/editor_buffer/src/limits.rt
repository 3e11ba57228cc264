//! The limits of a document.
ghost use Rattle.std.specs.Prelude.{◌≡◌};
ghost use Rattle.std.specs.List.{list_any};
ghost use Rattle.buffer_rules.specs.Preparing.{is_long, is_large};
ghost use Rattle.editor_buffer.specs.Standing.{sheets_of};

use crate::blobs::Blobs;
use crate::draft::OpenNodes;
use pide_base::{are_too_many, is_too_long};

/// Whether the text of some node is too long.
fn has_long_sheet(opened: &OpenNodes) -> bool
    ensures { result ≡ list_any (λ pair. is_long pair.1.text) (sheets_of opened.now) }
{
    let mut rest = opened.iter();
    'each: while let Some((_, node)) = rest.next() {
        if is_too_long(node.sheet().text.get().len()) {
            return true;
        }
    }
    false
}

/// Whether the text of some blob is too long.
fn has_long_blob(blobs: &Blobs) -> bool
    ensures { result ≡ list_any (λ pair. is_long pair.1) blobs.now }
{
    let mut rest = blobs.iter();
    'each: while let Some((_, text)) = rest.next() {
        if is_too_long(text.get().len()) {
            return true;
        }
    }
    false
}

/// Whether there are too many nodes or blobs, or too long a text.
pub(crate) fn is_large(opened: &OpenNodes, blobs: &Blobs) -> bool
    ensures { result ≡ is_large (record { sheets = sheets_of opened.now; blobs = blobs.now }) }
{
    are_too_many(opened.len())
        || are_too_many(blobs.len())
        || has_long_sheet(opened)
        || has_long_blob(blobs)
}
