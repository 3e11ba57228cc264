ghost use Rattle.std.specs.Prelude.{◌≡◌, ◌++◌, IfOk, OnOk, string_bytes};
ghost use Rattle.std.specs.List.{flat_map};
ghost use Rattle.yxml.specs.Marks.{marks, tree_marks, opening};
ghost use Rattle.yxml.specs.Normal.{IsNormal};
ghost use Rattle.yxml.specs.Spelling.{yxml, mark_spelling, spellings, attribute_spelling, Spells};

use crate::tree::{Attribute, Body, Tree};
use std::alloc::{AllocError, Global};

/// What begins a start tag.
const OPEN: &str = "\u{5}\u{6}";

/// What ends a start tag.
const OPENED: &str = "\u{5}";

/// What begins an attribute in a start tag.
const ATTRIBUTE: &str = "\u{6}";

/// What stands between a key and its value.
const EQUALS: &str = "=";

/// An end tag.
const CLOSE: &str = "\u{5}\u{6}\u{5}";

/// The YXML text of a normal body, which `parse_body` reads back.
pub fn write_body(alloc: Global, body: &Body) -> Result<String, AllocError>
    requires { IsNormal body.now }
    ensures text { IfOk result (λ text. string_bytes text ≡ yxml body.now) }
    ensures spells { IfOk result (λ text. Spells (string_bytes text) body.now) }
{
    let mut text = String::with_capacity(alloc, trees_len(body.as_slice()))?;
    write_trees(&mut text, body.as_slice())?;
    Ok(text)
}

/// How many bytes the trees take, which are reserved before the first is written.
#[cycle(measuring)]
fn trees_len(trees: &[Tree]) -> usize {
    let mut len: usize = 0;
    for tree in trees {
        len = len.saturating_add(tree_len(tree));
    }
    len
}

#[cycle(measuring)]
fn tree_len(tree: &Tree) -> usize {
    match tree {
        Tree::Elem {
            name,
            attributes,
            body,
        } => tag_len(name.as_str(), attributes.as_slice())
            .saturating_add(trees_len(body.as_slice()))
            .saturating_add(CLOSE.len()),
        Tree::Text(text) => text.as_str().len(),
    }
}

fn tag_len(name: &str, attributes: &[Attribute]) -> usize {
    let mut len = name.len().saturating_add(OPEN.len() + OPENED.len());
    for attribute in attributes {
        len = len
            .saturating_add(ATTRIBUTE.len() + EQUALS.len())
            .saturating_add(attribute.key.as_str().len())
            .saturating_add(attribute.value.as_str().len());
    }
    len
}

#[cycle(writing)]
fn write_trees(out: &mut String, trees: &[Tree]) -> Result<(), AllocError>
    ensures { OnOk result (string_bytes out.new
        ≡ string_bytes out.old ++ spellings (marks trees.now)) }
{
    for tree in trees {
        write_tree(out, tree)?;
    }
    Ok(())
}

#[cycle(writing)]
fn write_tree(out: &mut String, tree: &Tree) -> Result<(), AllocError>
    ensures { OnOk result (string_bytes out.new
        ≡ string_bytes out.old ++ spellings (tree_marks tree.now)) }
{
    match tree {
        Tree::Elem {
            name,
            attributes,
            body,
        } => {
            write_tag(out, name.as_str(), attributes.as_slice())?;
            write_trees(out, body.as_slice())?;
            out.push_str(CLOSE)
        }
        Tree::Text(text) => out.push_str(text.as_str()),
    }
}

fn write_tag(out: &mut String, name: &str, attributes: &[Attribute]) -> Result<(), AllocError>
    ensures { OnOk result (string_bytes out.new
        ≡ string_bytes out.old ++ mark_spelling (opening name.now attributes.now)) }
{
    out.push_str(OPEN)?;
    out.push_str(name)?;
    for attribute in attributes {
        write_attribute(out, attribute)?;
    }
    out.push_str(OPENED)
}

fn write_attribute(out: &mut String, attribute: &Attribute) -> Result<(), AllocError>
    ensures { OnOk result (string_bytes out.new
        ≡ string_bytes out.old ++ attribute_spelling attribute.now) }
{
    out.push_str(ATTRIBUTE)?;
    out.push_str(attribute.key.as_str())?;
    out.push_str(EQUALS)?;
    out.push_str(attribute.value.as_str())
}
