//! Texts, numbers and truth values, and the bodies of pairs and options.
ghost use Rattle.std.specs.Prelude.{◌≡◌, ◌≢◌, ◌∷◌, List, MatchOption};
ghost use Rattle.yxml.specs.declared.tree.Tree.{Tree};
ghost use Rattle.xml_codec.specs.Data.{node};
ghost use Rattle.message_values.specs.Reads.{Reads};
ghost use Rattle.message_values.specs.Shapes.{string_in, number_in, truth_of, bool_in, pair_in, option_in};

use crate::body::{LentBody, LentElement};
use crate::fault::ShapeFault;
use crate::number::number_of;
use std::alloc::Global;
use yxml::XmlString;

/// What stands in the element `:` without attributes that stands first in the body, from which it
/// is taken away.
pub(crate) fn take_node<'a>(body: &mut LentBody<'a>) -> Option<LentBody<'a>>
    ensures { MatchOption result ((inside more : List Tree) → body.old ≢ node inside ∷ more)
        (λ inside. body.old ≡ node inside ∷ body.new) }
{
    let Some(element) = body.take_element() else {
        return None;
    };
    let LentElement {
        name,
        attributes,
        body: inside,
    } = element;
    if name == ":" && attributes.is_empty() {
        Some(inside)
    } else {
        None
    }
}

/// The bodies of the parts of the pair whose body this is.
pub fn pair_of<'a>(body: LentBody<'a>) -> Result<(LentBody<'a>, LentBody<'a>), ShapeFault>
    ensures { Reads result (pair_in body.entry) }
{
    let mut body = body;
    let Some(first) = take_node(&mut body) else {
        return Err(ShapeFault::WrongShape);
    };
    let Some(second) = take_node(&mut body) else {
        return Err(ShapeFault::WrongShape);
    };
    if body.is_empty() {
        Ok((first, second))
    } else {
        Err(ShapeFault::WrongShape)
    }
}

/// The body of the item of the option whose body this is, if it has an item.
pub fn option_of<'a>(body: LentBody<'a>) -> Result<Option<LentBody<'a>>, ShapeFault>
    ensures { Reads result (option_in body.entry) }
{
    if body.is_empty() {
        return Ok(None);
    }
    let mut body = body;
    let Some(item) = take_node(&mut body) else {
        return Err(ShapeFault::WrongShape);
    };
    if body.is_empty() {
        Ok(Some(item))
    } else {
        Err(ShapeFault::WrongShape)
    }
}

/// The text whose body this is, copied.
pub fn string_of(alloc: Global, body: LentBody<'_>) -> Result<XmlString, ShapeFault>
    ensures { Reads result (string_in body.entry) }
{
    match body.text(alloc)? {
        Some(text) => Ok(text),
        None => Err(ShapeFault::WrongShape),
    }
}

/// The number whose body this is: from 0 on, of at most 18 digits.
pub fn number_in(alloc: Global, body: LentBody<'_>) -> Result<u64, ShapeFault>
    ensures { Reads result (number_in body.entry) }
{
    let text = string_of(alloc, body)?;
    match number_of(text.as_str()) {
        Some(number) => Ok(number),
        None => Err(ShapeFault::WrongShape),
    }
}

/// The truth value that the text writes.
fn truth_of(text: &str) -> Option<bool>
    ensures { result ≡ truth_of text.now }
{
    match text {
        "1" => Some(true),
        "0" => Some(false),
        _ => None,
    }
}

/// The truth value whose body this is.
pub(crate) fn bool_in(alloc: Global, body: LentBody<'_>) -> Result<bool, ShapeFault>
    ensures { Reads result (bool_in body.entry) }
{
    let text = string_of(alloc, body)?;
    match truth_of(text.as_str()) {
        Some(truth) => Ok(truth),
        None => Err(ShapeFault::WrongShape),
    }
}
