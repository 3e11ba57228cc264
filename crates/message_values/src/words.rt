//! Truth values, names, ids, texts, ranges and edits as shapes.
ghost use Rattle.std.specs.Prelude.{◌≡◌};
ghost use Rattle.message_values.specs.Reads.{Reads};
ghost use Rattle.message_values.specs.Words.{edit_of, start_of};

use crate::body::LentBody;
use crate::fault::ShapeFault;
use crate::leaf::{bool_in, number_in, pair_of, string_of};
use crate::number::number_of;
use crate::shape::Shape;
use crate::variant::variant_of;
use pide_base::{CommandId, ExecId, NodeName, Range, VersionId};
use sqlite_items::Items;
use std::alloc::Global;
use text_edits::{Edit, Text};
use yxml::XmlString;

impl Shape for bool {
    ghost use Rattle.message_values.specs.Shapes.{bool_in};

    ghost shape = { bool_in };

    fn read(alloc: Global, body: LentBody<'_>) -> Result<bool, ShapeFault> {
        bool_in(alloc, body)
    }
}

impl Shape for VersionId {
    ghost use Rattle.message_values.specs.Words.{id_in};

    ghost shape = { id_in };

    fn read(alloc: Global, body: LentBody<'_>) -> Result<VersionId, ShapeFault> {
        let number = number_in(alloc, body)?;
        VersionId::new(number).ok_or(ShapeFault::WrongShape)
    }
}

impl Shape for CommandId {
    ghost use Rattle.message_values.specs.Words.{id_in};

    ghost shape = { id_in };

    fn read(alloc: Global, body: LentBody<'_>) -> Result<CommandId, ShapeFault> {
        let number = number_in(alloc, body)?;
        CommandId::new(number).ok_or(ShapeFault::WrongShape)
    }
}

impl Shape for ExecId {
    ghost use Rattle.message_values.specs.Words.{id_in};

    ghost shape = { id_in };

    fn read(alloc: Global, body: LentBody<'_>) -> Result<ExecId, ShapeFault> {
        let number = number_in(alloc, body)?;
        ExecId::new(number).ok_or(ShapeFault::WrongShape)
    }
}

impl Shape for NodeName {
    ghost use Rattle.message_values.specs.Words.{name_in};

    ghost shape = { name_in };

    fn read(alloc: Global, body: LentBody<'_>) -> Result<NodeName, ShapeFault> {
        let text = string_of(alloc, body)?;
        match NodeName::new(text.into_string()) {
            Ok(name) => Ok(name),
            Err(_) => Err(ShapeFault::WrongShape),
        }
    }
}

impl Shape for Text {
    ghost use Rattle.message_values.specs.Words.{text_in};

    ghost shape = { text_in };

    fn read(alloc: Global, body: LentBody<'_>) -> Result<Text, ShapeFault> {
        let text = string_of(alloc, body)?;
        Ok(Text::from_str(alloc, text.as_str())?)
    }
}

impl Shape for Range {
    ghost use Rattle.message_values.specs.Words.{range_in};

    ghost shape = { range_in };

    fn read(alloc: Global, body: LentBody<'_>) -> Result<Range, ShapeFault> {
        let (start, stop) = pair_of(body)?;
        let start = number_in(alloc, start)? as usize;
        let stop = number_in(alloc, stop)? as usize;
        Ok(Range { start, stop })
    }
}

/// The number that is the only one of the values.
fn start_of(values: &[XmlString]) -> Option<u64>
    ensures { result ≡ start_of values.now }
{
    match values {
        [start] => number_of(start.as_str()),
        _ => None,
    }
}

/// The edit of this kind: 0 puts the text in, 1 takes it out.
fn edit_of(kind: u64, start: usize, text: Text) -> Option<Edit>
    ensures { result ≡ edit_of kind start text }
{
    match kind {
        0 => Some(Edit::Insert { start, text }),
        1 => Some(Edit::Remove { start, text }),
        _ => None,
    }
}

impl Shape for Edit {
    ghost use Rattle.message_values.specs.Words.{edit_in};

    ghost shape = { edit_in };

    fn read(alloc: Global, body: LentBody<'_>) -> Result<Edit, ShapeFault> {
        let variant = variant_of(alloc, body)?;
        let Some(start) = start_of(variant.values.as_slice()) else {
            return Err(ShapeFault::WrongShape);
        };
        let text = Text::read(alloc, variant.argument)?;
        edit_of(variant.index, start as usize, text).ok_or(ShapeFault::WrongShape)
    }
}
