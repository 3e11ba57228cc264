ghost use Rattle.std.specs.Prelude.{◌≡◌, ◌≢◌, ◌<◌, ◌^◌, ◌==◌, ◌↔◌, ◌∷◌, [], ℕ, List, IsTrue, IfOk, IfErr, IfSome, IfNone, MatchOption, decimal};
ghost use Rattle.yxml.specs.declared.tree.Tree.{Tree};
ghost use Rattle.xml_codec.specs.Data.{numbered_from, variant_body};
ghost use Rattle.xml_codec.specs.Faults.{IsVariantFault};

use crate::fault::DataFault;
use crate::node::one_tree;
use crate::number::number_of;
use itoa::Buffer;
use joined_results::both;
use sqlite_items::Items;
use std::alloc::{AllocError, Global};
use yxml::{Attribute, Body, Tree, XmlName, XmlString};

/// The body of a variant: one element named by its number, with the values as attributes numbered
/// from 0, around the body of its argument.
pub fn put_variant(
    alloc: Global,
    index: u64,
    values: Items<XmlString>,
    argument: Body,
) -> Result<Body, AllocError>
    ensures { IfOk result (λ body. body ≡ variant_body index values argument) }
{
    let (name, attributes) = both(printed(alloc, index), numbered(alloc, values))?;
    one_tree(
        alloc,
        Tree::Elem {
            name,
            attributes,
            body: argument,
        },
    )
}

fn printed(alloc: Global, number: u64) -> Result<XmlName, AllocError>
    ensures { IfOk result (λ text. text ≡ decimal number) }
{
    let mut buffer = Buffer::new();
    XmlName::from_str(alloc, buffer.format(number))
}

/// The values as attributes with the keys `0`, `1`, ..
fn numbered(alloc: Global, values: Items<XmlString>) -> Result<Items<Attribute>, AllocError>
    ensures { IfOk result (λ attributes. attributes ≡ numbered_from 0 values) }
{
    let mut values = values;
    let mut reversed = Vec::new(alloc);
    while let Some(value) = values.pop() {
        let key = printed(alloc, values.len() as u64)?;
        reversed.push(Attribute { key, value })?;
    }
    reversed.reverse();
    Ok(Items::from_vec(reversed))
}

/// The values of attributes that are numbered so.
fn values_of(
    alloc: Global,
    attributes: Items<Attribute>,
) -> Result<Option<Items<XmlString>>, AllocError>
    ensures { IfOk result (λ found. MatchOption found
        ((values : List (List ℕ)) → attributes ≢ numbered_from 0 values)
        (λ values. attributes ≡ numbered_from 0 values)) }
{
    let mut attributes = attributes;
    let mut reversed = Vec::new(alloc);
    while let Some(attribute) = attributes.pop() {
        let Attribute { key, value } = attribute;
        if !is_number(key.as_str(), attributes.len() as u64) {
            return Ok(None);
        }
        reversed.push(value)?;
    }
    reversed.reverse();
    Ok(Some(Items::from_vec(reversed)))
}

fn is_number(text: &str, number: u64) -> bool
    ensures { IsTrue result ↔ (text.now ≡ decimal number) }
{
    match number_of(text) {
        Some(found) => found == number,
        None => false,
    }
}

/// The number, the attributes' values and the argument's body of the variant whose body this is.
/// The place of a fault is the body itself where it has not one child, else that child.
pub fn get_variant(alloc: Global, body: Body) -> Result<(u64, Items<XmlString>, Body), DataFault>
    ensures value { IfOk result (λ v. body ≡ variant_body v.0 v.1 v.2) }
    ensures place { IfErr result (IsVariantFault body) }
    ensures none { IfErr result (λ f. f ≢ DataFault.NoMemory → (index : ℕ) → index < 2 ^ 64
        → (values : List (List ℕ)) (argument : List Tree)
        → body ≢ variant_body index values argument) }
{
    if body.len() != 1 {
        drop(body);
        return Err(DataFault::here(alloc));
    }
    let mut body = body;
    let element = body.pop();
    drop(body);
    let Some(
        Tree::Elem {
            name,
            attributes,
            body: argument,
        },
    ) = element
    else {
        return Err(DataFault::at_child(alloc, 0));
    };
    let index = number_of(name.as_str());
    drop(name);
    let Some(index) = index else {
        drop(attributes);
        drop(argument);
        return Err(DataFault::at_child(alloc, 0));
    };
    let Some(values) = values_of(alloc, attributes)? else {
        return Err(DataFault::at_child(alloc, 0));
    };
    Ok((index, values, argument))
}
