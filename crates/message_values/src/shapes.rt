//! Items and blobs read from the bodies that encode them.
ghost use Rattle.std.specs.Prelude.{[]};
ghost use Rattle.message_values.specs.Reads.{Reads};
ghost use Rattle.message_values.specs.Words.{name_in};
ghost use Rattle.message_values.specs.Items.{edited_in, change_of};

use crate::body::LentBody;
use crate::fault::ShapeFault;
use crate::item::{BlobChange, Change, Item, Perspective};
use crate::leaf::{pair_of, string_of};
use crate::shape::{Shape, list_of, optional_of};
use crate::variant::variant_of;
use doc_nodes::BlobName;
use pide_base::NodeName;
use std::alloc::Global;

impl Shape for Perspective {
    ghost use Rattle.message_values.specs.Items.{perspective_in};

    ghost shape = { perspective_in };

    fn read(alloc: Global, body: LentBody<'_>) -> Result<Perspective, ShapeFault> {
        let (required, ranges) = pair_of(body)?;
        let required = bool::read(alloc, required)?;
        let ranges = list_of(alloc, ranges)?;
        Ok(Perspective { required, ranges })
    }
}

/// Edits and a perspective, if there is one.
fn edited(alloc: Global, body: LentBody<'_>) -> Result<Change, ShapeFault>
    ensures { Reads result (edited_in body.entry) }
{
    let (edits, perspective) = pair_of(body)?;
    let edits = list_of(alloc, edits)?;
    let perspective = optional_of(alloc, perspective)?;
    Ok(Change::Edit { edits, perspective })
}

/// A change of this kind: 0 edits, 1 closes.
fn change_of(alloc: Global, kind: u64, argument: LentBody<'_>) -> Result<Change, ShapeFault>
    ensures { Reads result (change_of kind [] argument.entry) }
{
    match kind {
        0 => edited(alloc, argument),
        1 if argument.is_empty() => Ok(Change::Close),
        _ => Err(ShapeFault::WrongShape),
    }
}

impl Shape for Change {
    ghost use Rattle.message_values.specs.Items.{change_in};

    ghost shape = { change_in };

    fn read(alloc: Global, body: LentBody<'_>) -> Result<Change, ShapeFault> {
        let variant = variant_of(alloc, body)?;
        if !variant.values.is_empty() {
            return Err(ShapeFault::WrongShape);
        }
        change_of(alloc, variant.index, variant.argument)
    }
}

impl Shape for Item {
    ghost use Rattle.message_values.specs.Items.{item_in};

    ghost shape = { item_in };

    fn read(alloc: Global, body: LentBody<'_>) -> Result<Item, ShapeFault> {
        let (node, change) = pair_of(body)?;
        let node = NodeName::read(alloc, node)?;
        let change = Change::read(alloc, change)?;
        Ok(Item { node, change })
    }
}

/// The name of a blob.
fn blob_name(alloc: Global, body: LentBody<'_>) -> Result<BlobName, ShapeFault>
    ensures { Reads result (name_in body.entry) }
{
    let text = string_of(alloc, body)?;
    match BlobName::new(text.into_string()) {
        Ok(name) => Ok(name),
        Err(_) => Err(ShapeFault::WrongShape),
    }
}

impl Shape for BlobChange {
    ghost use Rattle.message_values.specs.Items.{blob_in};

    ghost shape = { blob_in };

    fn read(alloc: Global, body: LentBody<'_>) -> Result<BlobChange, ShapeFault> {
        let (name, text) = pair_of(body)?;
        let name = blob_name(alloc, name)?;
        let text = optional_of(alloc, text)?;
        Ok(BlobChange { name, text })
    }
}
