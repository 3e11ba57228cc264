//! Trees and the strings in them (`yxml`).
use script_lines::{Answer, Fault};
use std::alloc::{AllocError, Global};
use yxml::{Attribute, Body, Tree, XmlString};

/// Answers a body, with its elements as XML.
pub(crate) fn told(out: &mut String, body: Result<Body, Fault>) -> Answer {
    let body = body?;
    let put = put_trees(out, body.as_slice());
    drop(body);
    Ok(put?)
}

fn put_trees(out: &mut String, trees: &[Tree]) -> Result<(), AllocError> {
    for tree in trees {
        put_tree(out, tree)?;
    }
    Ok(())
}

/// Answers a body as it is debugged.
pub(crate) fn debugged(out: &mut String, body: Result<Body, Fault>) -> Answer {
    let body = body?;
    let put = write!(out, "{body:?}");
    drop(body);
    Ok(put?)
}

/// Adds a tree: an element, and the texts in it, or a text.
fn put_tree(out: &mut String, tree: &Tree) -> Result<(), AllocError> {
    match tree {
        Tree::Elem {
            name,
            attributes,
            body,
        } => {
            put_tag(out, name.as_str(), attributes.as_slice())?;
            put_inner(out, body.as_slice())
        }
        Tree::Text(text) => out.push_str(text.as_str()),
    }
}

/// Adds a tag.
fn put_tag(out: &mut String, name: &str, attributes: &[Attribute]) -> Result<(), AllocError> {
    write!(out, "<{name}")?;
    for attribute in attributes {
        let key = attribute.key.as_str();
        let value = attribute.value.as_str();
        write!(out, " {key}={value}")?;
    }
    out.push_str(">")
}

/// Adds the texts in an element, an element in it as `<..>`, and its end.
fn put_inner(out: &mut String, trees: &[Tree]) -> Result<(), AllocError> {
    for tree in trees {
        match tree {
            Tree::Elem { .. } => out.push_str("<..>")?,
            Tree::Text(text) => out.push_str(text.as_str())?,
        }
    }
    out.push_str("</>")
}

/// The string of all scalars of the text, added one by one.
fn joined(alloc: Global, text: &str) -> Result<XmlString, AllocError> {
    let mut string = XmlString::new(alloc);
    for scalar in text.chars() {
        string.push_str(format!(in alloc; "{scalar}")?.as_str())?;
    }
    Ok(string)
}

/// Adds whether a new string is empty, whether the one of the text is, where it was given back, and
/// that.
pub(crate) fn put_string(alloc: Global, out: &mut String, text: &str) -> Result<(), AllocError> {
    let was_empty = XmlString::new(alloc).is_empty();
    let back = XmlString::from_string(joined(alloc, text)?.into_string());
    let is_empty = back.is_empty();
    let told = back.as_str();
    write!(out, "{was_empty} {is_empty} {told}")
}
