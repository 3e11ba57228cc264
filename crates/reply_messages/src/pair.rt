//! Nodes of data around a word, and around a word with a list.
ghost use Rattle.std.specs.Prelude.{◌≡◌, ◌↔◌, ◌∷◌, [], IsTrue, IfOk};
ghost use Rattle.std.specs.List.{AllByRecursion, flat_map};
ghost use Rattle.reply_messages.specs.Found.{FindsFront};
ghost use Rattle.reply_messages.specs.Laws.{AreElements, AreWords};
ghost use Rattle.reply_messages.specs.Marks.{node_bytes, pair_bytes};

use crate::element::{BEGIN, END, after, element_at};
use crate::list::{Piece, take_all};
use crate::taken::Taken;
use crate::words::Word;
use sqlite_items::Items;
use std::alloc::{AllocError, Global};

/// A value and the list that it has.
#[derive(Debug, Drop)]
pub(crate) struct Listed<W, P> {
    pub(crate) of: W,
    pub(crate) items: Items<P>,
}

/// Whether the tag is a node's.
fn is_node(tag: &[u8]) -> bool
    ensures { IsTrue result ↔ (tag.now ≡ 58 ∷ []) }
{
    tag == ":".as_bytes()
}

/// The value in the node that the text begins with.
pub(crate) fn take_word<W: Word>(alloc: Global, text: &[u8]) -> Result<Option<Taken<W>>, AllocError>
    requires words { AreWords W.word W.fits }
    ensures { IfOk result (λ found.
        FindsFront (λ value. node_bytes (W.word value)) W.fits text.now found) }
{
    let Some(element) = element_at(text) else {
        return Ok(None);
    };
    if !is_node(element.tag) {
        return Ok(None);
    }
    let length = text.len() - element.rest.len();
    let Some(value) = W::told(alloc, element.text)? else {
        return Ok(None);
    };
    Ok(Some(Taken { value, length }))
}

/// The value and its list in the node that the text begins with.
pub(crate) fn take_listed<W: Word, P: Piece>(
    alloc: Global,
    text: &[u8],
) -> Result<Option<Taken<Listed<W, P>>>, AllocError>
    requires words { AreWords W.word W.fits }
    requires elements { AreElements P.spelling P.fits }
    ensures { IfOk result (λ found. FindsFront
        (λ listed. pair_bytes (W.word listed.of) (flat_map P.spelling listed.items))
        (λ listed. W.fits listed.of × AllByRecursion P.fits listed.items) text.now found) }
{
    let Some(inner) = after(text, BEGIN) else {
        return Ok(None);
    };
    let Some(of) = take_word::<W>(alloc, inner)? else {
        return Ok(None);
    };
    let Some(inner) = after(&inner[of.length..], BEGIN) else {
        return Ok(None);
    };
    let items = take_all::<P>(alloc, inner)?;
    let Some(inner) = after(&inner[items.length..], END) else {
        return Ok(None);
    };
    let Some(rest) = after(inner, END) else {
        return Ok(None);
    };
    let value = Listed {
        of: of.value,
        items: items.value,
    };
    let length = text.len() - rest.len();
    Ok(Some(Taken { value, length }))
}
