//! What a shape is, and lists of one shape.
ghost use Rattle.message_values.specs.Reads.{Reads};
ghost use Rattle.message_values.specs.Shapes.{items_in, optional_in};

use crate::body::LentBody;
use crate::fault::ShapeFault;
use crate::leaf::{option_of, take_node};
use sqlite_items::Items;
use std::alloc::Global;

/// A value that a body can encode.
pub trait Shape: Drop {
    ghost use Rattle.std.specs.Prelude.{List, Option};
    ghost use Rattle.yxml.specs.declared.tree.Tree.{Tree};
    ghost use Rattle.message_values.specs.Reads.{Reads};

    /// Which value a body encodes, if it encodes one.
    ghost shape: { List Tree → Option Self };

    /// The value that the body encodes.
    fn read(alloc: Global, body: LentBody<'_>) -> Result<Self, ShapeFault>
        ensures { Reads result (shape body.entry) };
}

/// The list whose body this is.
pub fn list_of<T: Shape>(alloc: Global, body: LentBody<'_>) -> Result<Items<T>, ShapeFault>
    ensures { Reads result (items_in T.shape body.entry) }
{
    let mut body = body;
    let mut items = Items::new(alloc);
    'items: while !body.is_empty() {
        let Some(item) = take_node(&mut body) else {
            return Err(ShapeFault::WrongShape);
        };
        let value = T::read(alloc, item)?;
        items.push(value)?;
    }
    Ok(items)
}

/// The option whose body this is.
pub fn optional_of<T: Shape>(alloc: Global, body: LentBody<'_>) -> Result<Option<T>, ShapeFault>
    ensures { Reads result (optional_in T.shape body.entry) }
{
    match option_of(body)? {
        Some(item) => Ok(Some(T::read(alloc, item)?)),
        None => Ok(None),
    }
}
