ghost use Rattle.std.specs.Prelude.{◌≡◌, ◌≢◌, ◌∷◌, [], List, Option, IfOk, IfErr, MatchOption};
ghost use Rattle.yxml.specs.declared.tree.Tree.{Tree};
ghost use Rattle.xml_codec.specs.Data.{node, pair_body, list_body, option_body};
ghost use Rattle.xml_codec.specs.Faults.{IsNodesFault, any_number, two, at_most_one};

use crate::fault::DataFault;
use joined_results::both;
use sqlite_items::Items;
use std::alloc::{AllocError, Global};
use yxml::{Body, Tree, XmlName};

/// The body of one tree.
pub(crate) fn one_tree(alloc: Global, tree: Tree) -> Result<Body, AllocError>
    ensures { IfOk result (λ body. body ≡ tree ∷ []) }
{
    let mut body = Items::new(alloc);
    body.push(tree)?;
    Ok(body)
}

/// The body of two trees.
fn two_trees(alloc: Global, first: Tree, second: Tree) -> Result<Body, AllocError>
    ensures { IfOk result (λ body. body ≡ first ∷ second ∷ []) }
{
    let mut body = Items::new(alloc);
    let pushed = both(body.push(first), body.push(second));
    pushed?;
    Ok(body)
}

/// An element `:` without attributes.
fn node(alloc: Global, body: Body) -> Result<Tree, AllocError>
    ensures { IfOk result (λ tree. tree ≡ node body) }
{
    Ok(Tree::Elem {
        name: XmlName::from_str(alloc, ":")?,
        attributes: Items::new(alloc),
        body,
    })
}

/// What stands in an element `:` without attributes.
fn node_body(tree: Tree) -> Option<Body>
    ensures { MatchOption result ((inside : List Tree) → tree ≢ node inside)
        (λ inside. tree ≡ node inside) }
{
    match tree {
        Tree::Elem {
            name,
            attributes,
            body,
        } => {
            if name.as_str() == ":" && attributes.is_empty() {
                Some(body)
            } else {
                None
            }
        }
        Tree::Text(_) => None,
    }
}

/// The body of a pair: a node for each part.
pub fn put_pair(alloc: Global, first: Body, second: Body) -> Result<Body, AllocError>
    ensures { IfOk result (λ body. body ≡ pair_body first second) }
{
    let (first, second) = both(node(alloc, first), node(alloc, second))?;
    two_trees(alloc, first, second)
}

/// The body of a list: a node for each item. It goes from the back, as `Items` gives up its items
/// only there without moving the others.
pub fn put_list(alloc: Global, items: Items<Body>) -> Result<Body, AllocError>
    ensures { IfOk result (λ body. body ≡ list_body items) }
{
    let mut items = items;
    let mut reversed = Vec::new(alloc);
    while let Some(item) = items.pop() {
        reversed.push(node(alloc, item)?)?;
    }
    reversed.reverse();
    Ok(Items::from_vec(reversed))
}

/// The body of an option: empty, or a node.
pub fn put_option(alloc: Global, item: Option<Body>) -> Result<Body, AllocError>
    ensures { IfOk result (λ body. body ≡ option_body item) }
{
    match item {
        Some(item) => one_tree(alloc, node(alloc, item)?),
        None => Ok(Items::new(alloc)),
    }
}

/// The bodies of the items of a list. The place of a fault is the first child that is no node. It
/// goes from the back, as `Items` gives up its items only there without moving the others.
pub fn get_list(alloc: Global, body: Body) -> Result<Items<Body>, DataFault>
    ensures value { IfOk result (λ items. body ≡ list_body items) }
    ensures place { IfErr result (IsNodesFault any_number body) }
{
    let mut body = body;
    let mut reversed = Vec::new(alloc);
    let mut wrong = None;
    while let Some(child) = body.pop() {
        match node_body(child) {
            Some(inside) => reversed.push(inside).map_err(AllocError::from)?,
            None => {
                reversed.clear();
                wrong = Some(body.len() as u64);
            }
        }
    }
    if let Some(place) = wrong {
        return Err(DataFault::at_child(alloc, place));
    }
    reversed.reverse();
    Ok(Items::from_vec(reversed))
}

/// The bodies of the parts of a pair. The place of a fault is the body itself where it has not two
/// children, else the first child that is no node.
pub fn get_pair(alloc: Global, body: Body) -> Result<(Body, Body), DataFault>
    ensures value { IfOk result (λ parts. body ≡ pair_body parts.0 parts.1) }
    ensures place { IfErr result (IsNodesFault two body) }
{
    if body.len() != 2 {
        return Err(DataFault::here(alloc));
    }
    let mut items = get_list(alloc, body)?;
    let (Some(second), Some(first)) = (items.pop(), items.pop()) else {
        unreachable!()
    };
    Ok((first, second))
}

/// The body of the item of an option, if there is one. The place of a fault is the body itself
/// where it has more than one child, else the child that is no node.
pub fn get_option(alloc: Global, body: Body) -> Result<Option<Body>, DataFault>
    ensures value { IfOk result (λ item. body ≡ option_body item) }
    ensures place { IfErr result (IsNodesFault at_most_one body) }
{
    if body.len() > 1 {
        return Err(DataFault::here(alloc));
    }
    let mut items = get_list(alloc, body)?;
    Ok(items.pop())
}
