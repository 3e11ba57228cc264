//! Values that are written as bodies (`xml_codec`).
use joined_results::both;
use sqlite_items::Items;
use std::alloc::{AllocError, Global};
use xml_codec::{put_int, put_list, put_option, put_pair, put_string, put_variant};
use yxml::{Body, Tree, XmlString};

/// What is written.
type Written = Result<Body, AllocError>;

/// The body of one text.
pub(crate) fn text(alloc: Global, text: &str) -> Written {
    let mut body = Items::new(alloc);
    body.push(Tree::Text(XmlString::from_str(alloc, text)?))?;
    Ok(body)
}

/// Adds a body to a list.
fn push(items: &mut Items<Body>, body: Written) -> Result<(), AllocError> {
    items.push(body?)
}

/// The body of a list of texts.
pub(crate) fn list(alloc: Global, texts: &[&str]) -> Written {
    let mut items = Items::new(alloc);
    for one in texts {
        push(&mut items, text(alloc, one))?;
    }
    put_list(alloc, items)
}

/// The pair of 1 and `y`.
pub(crate) fn pair(alloc: Global) -> Written {
    let (first, second) = both(put_int(alloc, 1), put_string(alloc, "y"))?;
    put_pair(alloc, first, second)
}

/// The option of 7, or of nothing.
pub(crate) fn option(alloc: Global, has_item: bool) -> Written {
    if has_item {
        put_option(alloc, Some(put_int(alloc, 7)?))
    } else {
        put_option(alloc, None)
    }
}

/// Adds a value of a variant.
fn push_value(
    values: &mut Items<XmlString>,
    value: Result<XmlString, AllocError>,
) -> Result<(), AllocError> {
    values.push(value?)
}

/// The texts `a` and `b`.
fn values(alloc: Global) -> Result<Items<XmlString>, AllocError> {
    let mut values = Items::new(alloc);
    push_value(&mut values, XmlString::from_str(alloc, "a"))?;
    push_value(&mut values, XmlString::from_str(alloc, "b"))?;
    Ok(values)
}

/// The variant 3 of these texts and the integer 5.
pub(crate) fn variant(alloc: Global) -> Written {
    let (values, argument) = both(values(alloc), put_int(alloc, 5))?;
    put_variant(alloc, 3, values, argument)
}
