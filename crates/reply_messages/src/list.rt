//! Lists of elements.
ghost use Rattle.std.specs.Prelude.{IfOk, List};
ghost use Rattle.std.specs.List.{AllByRecursion, flat_map};
ghost use Rattle.reply_messages.specs.Found.{Finds, FrontsAll};
ghost use Rattle.reply_messages.specs.Laws.{AreElements};

use crate::taken::Taken;
use sqlite_items::Items;
use std::alloc::{AllocError, Global};

/// A value that one element tells.
pub(crate) trait Piece: Drop {
    ghost use Rattle.std.specs.Prelude.{ℕ, List, IfOk};
    ghost use Rattle.reply_messages.specs.Found.{FindsFront};

    /// The element's bytes.
    ghost spelling: { Self → List ℕ };

    /// Which values there are.
    ghost fits: { Self → Type 0 };

    /// The value whose element the text begins with.
    fn take(alloc: Global, text: &[u8]) -> Result<Option<Taken<Self>>, AllocError>
        ensures { IfOk result (λ found. FindsFront spelling fits text.now found) };
}

/// The values whose elements the text begins with, as many as there are.
pub(crate) fn take_all<P: Piece>(alloc: Global, text: &[u8]) -> Result<Taken<Items<P>>, AllocError>
    ensures { IfOk result (λ taken. FrontsAll P.spelling P.fits text.now taken) }
{
    let mut value = Items::new(alloc);
    let mut length = 0;
    'pieces: while let Some(taken) = P::take(alloc, &text[length..])? {
        value.push(taken.value)?;
        length += taken.length;
    }
    Ok(Taken { value, length })
}

/// The values whose elements, one after the other, are the text.
pub(crate) fn all_of<P: Piece>(alloc: Global, text: &[u8]) -> Result<Option<Items<P>>, AllocError>
    requires elements { AreElements P.spelling P.fits }
    ensures { IfOk result (λ found.
        Finds (flat_map P.spelling) (AllByRecursion P.fits) text.now found) }
{
    let taken = take_all(alloc, text)?;
    if taken.length == text.len() {
        Ok(Some(taken.value))
    } else {
        Ok(None)
    }
}
