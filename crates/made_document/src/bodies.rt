//! Items of updates, as the data that encodes them.
ghost use Rattle.std.specs.Prelude.{◌≡◌, ◌≤◌, ◌∷◌, [], ℕ, IfOk, decimal, filter, map, true};
ghost use Rattle.yxml.specs.Normal.{IsPlain};
ghost use Rattle.xml_codec.specs.Data.{bool_body, list_body, option_body, pair_body, string_body, variant_body};
ghost use Rattle.message_values.specs.Bodies.{item_body};
ghost use Rattle.made_document.specs.Texts.{most_nodes, name};
ghost use Rattle.made_document.specs.Messages.{first_item, first_items, second_item, second_items};

use crate::texts::{ENDING, name, put_number, text};
use joined_results::both;
use sqlite_items::Items;
use std::alloc::{AllocError, Global};
use xml_codec::{put_bool, put_list, put_option, put_pair, put_string, put_variant};
use yxml::{Body, XmlString};

/// What the second update inserts.
const INSERTED: &str = "axiom a: \"Q\" ";

/// The value of a variant that is a number.
fn number_value(alloc: Global, number: u64) -> Result<Items<XmlString>, AllocError>
    ensures { IfOk result (λ values. values ≡ decimal number ∷ []) }
{
    let mut value = String::new(alloc);
    put_number(&mut value, number)?;
    let mut values = Items::new(alloc);
    values.push(XmlString::from_string(value))?;
    Ok(values)
}

/// The body of a list of one.
fn only(alloc: Global, body: Body) -> Result<Body, AllocError>
    ensures { IfOk result (λ made. made ≡ list_body (body ∷ [])) }
{
    let mut items = Items::new(alloc);
    items.push(body)?;
    put_list(alloc, items)
}

/// The body of an edit that inserts this text at the place.
fn insert_body(alloc: Global, place: u64, text: &str) -> Result<Body, AllocError>
    requires plain { IsPlain text.now }
    ensures { IfOk result (λ body. body
        ≡ variant_body 0 (decimal place ∷ []) (string_body text.now)) }
{
    let (values, argument) = both(number_value(alloc, place), put_string(alloc, text))?;
    put_variant(alloc, 0, values, argument)
}

/// The body of a change by one edit, perhaps with a perspective.
fn change_body(alloc: Global, edit: Body, perspective: Option<Body>) -> Result<Body, AllocError>
    ensures { IfOk result (λ body. body ≡ variant_body 0 []
        (pair_body (list_body (edit ∷ [])) (option_body perspective))) }
{
    let (edits, perspective) = both(only(alloc, edit), put_option(alloc, perspective))?;
    let argument = put_pair(alloc, edits, perspective)?;
    put_variant(alloc, 0, Items::new(alloc), argument)
}

/// The body of the name of a node.
fn name_body(alloc: Global, number: u64) -> Result<Body, AllocError>
    requires few { number ≤ most_nodes }
    ensures { IfOk result (λ body. body ≡ string_body (name number)) }
{
    let text = name(alloc, number)?;
    put_string(alloc, text.as_str())
}

/// The body of an item that changes a node by one edit, perhaps with a perspective.
fn edited(
    alloc: Global,
    number: u64,
    edit: Body,
    perspective: Option<Body>,
) -> Result<Body, AllocError>
    requires few { number ≤ most_nodes }
    ensures { IfOk result (λ body. body ≡ pair_body (string_body (name number)) (variant_body 0 []
        (pair_body (list_body (edit ∷ [])) (option_body perspective)))) }
{
    let (node, change) = both(
        name_body(alloc, number),
        change_body(alloc, edit, perspective),
    )?;
    put_pair(alloc, node, change)
}

/// The body of the perspective of a node that is required and has no ranges.
fn required_body(alloc: Global) -> Result<Body, AllocError>
    ensures { IfOk result (λ body. body ≡ pair_body (bool_body true) (list_body [])) }
{
    let (required, ranges) = both(put_bool(alloc, true), put_list(alloc, Items::new(alloc)))?;
    put_pair(alloc, required, ranges)
}

/// The body of the item that makes a node.
fn first_item(alloc: Global, number: u64) -> Result<Body, AllocError>
    requires few { number ≤ most_nodes }
    ensures { IfOk result (λ body. body ≡ item_body (first_item number)) }
{
    let text = text(alloc, number)?;
    let (edit, perspective) = both(insert_body(alloc, 0, text.as_str()), required_body(alloc))?;
    edited(alloc, number, edit, Some(perspective))
}

/// The body of the item that inserts an axiom into a node.
fn second_item(alloc: Global, number: u64) -> Result<Body, AllocError>
    requires few { number ≤ most_nodes }
    ensures { IfOk result (λ body. body ≡ item_body (second_item number)) }
{
    let text = text(alloc, number)?;
    let place = text.len() - ENDING.len();
    let edit = insert_body(alloc, place as u64, INSERTED)?;
    edited(alloc, number, edit, None)
}

/// The bodies of the items that make the nodes.
pub(crate) fn first_items(alloc: Global, count: u64) -> Result<Items<Body>, AllocError>
    requires few { count ≤ most_nodes }
    ensures { IfOk result (λ items. items ≡ map item_body (first_items count)) }
{
    let mut items = Items::new(alloc);
    'nodes: for before in 0..count {
        items.push(first_item(alloc, before + 1)?)?;
    }
    Ok(items)
}

/// The bodies of the items that insert axioms, into each third node.
pub(crate) fn second_items(alloc: Global, count: u64) -> Result<Items<Body>, AllocError>
    requires few { count ≤ most_nodes }
    ensures { IfOk result (λ items. items ≡ map item_body (second_items count)) }
{
    let mut items = Items::new(alloc);
    'nodes: for before in 0..count {
        let number = before + 1;
        if number % 3 == 0 {
            items.push(second_item(alloc, number)?)?;
        }
    }
    Ok(items)
}
