//! Variants.
ghost use Rattle.std.specs.Prelude.{◌≡◌, bytes_eq, decimal, IfOk};
ghost use Rattle.message_values.specs.Reads.{Reads};
ghost use Rattle.message_values.specs.Shapes.{values_from, variant_in};

use crate::attributes::LentAttributes;
use crate::body::{LentBody, LentElement};
use crate::fault::ShapeFault;
use crate::number::index_of;
use sqlite_items::Items;
use std::alloc::{AllocError, Global};
use yxml::XmlString;

/// A variant: its number, the values of its attributes, and its argument's body.
#[derive(Drop)]
pub struct Variant<'a> {
    pub index: u64,
    pub values: Items<XmlString>,
    pub argument: LentBody<'a>,
}

/// Whether the text is the number's decimal.
fn is_number(text: &str, number: u64) -> bool
    ensures { result ≡ bytes_eq text.now (decimal number) }
{
    match xml_codec::number_of(text) {
        Some(found) => found == number,
        None => false,
    }
}

/// The values of attributes that are numbered from 0 on, or None where they are not.
fn values_of(
    alloc: Global,
    attributes: LentAttributes<'_>,
) -> Result<Option<Items<XmlString>>, AllocError>
    ensures { IfOk result (λ found. found ≡ values_from 0 attributes.entry) }
{
    let mut attributes = attributes;
    let mut values = Items::new(alloc);
    'values: while let Some(attribute) = attributes.next() {
        if !is_number(attribute.key, values.len() as u64) {
            return Ok(None);
        }
        values.push(XmlString::from_str(alloc, attribute.value)?)?;
    }
    Ok(Some(values))
}

/// The variant whose body this is.
pub fn variant_of<'a>(alloc: Global, body: LentBody<'a>) -> Result<Variant<'a>, ShapeFault>
    ensures { Reads result (variant_in body.entry) }
{
    let mut body = body;
    let Some(element) = body.take_element() else {
        return Err(ShapeFault::WrongShape);
    };
    let LentElement {
        name,
        attributes,
        body: argument,
    } = element;
    if !body.is_empty() {
        return Err(ShapeFault::WrongShape);
    }
    let Some(index) = index_of(name) else {
        return Err(ShapeFault::WrongShape);
    };
    match values_of(alloc, attributes)? {
        Some(values) => Ok(Variant {
            index,
            values,
            argument,
        }),
        None => Err(ShapeFault::WrongShape),
    }
}
