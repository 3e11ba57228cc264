//! Bodies that are lent from the texts that spell them (`message_values`).
use message_values::{LentAttribute, LentBody, LentElement};
use script_lines::{Answer, Fault};
use std::alloc::{AllocError, Global};

/// The body of a text that has to spell one.
fn body_of(text: &str) -> Result<LentBody<'_>, Fault> {
    match LentBody::of(text) {
        Ok(body) => Ok(body),
        Err(_) => Err(Fault::Line),
    }
}

/// The first fault of the text, or `none`.
pub(crate) fn fault(alloc: Global, text: &str) -> Result<String, AllocError> {
    match LentBody::of(text) {
        Ok(_) => String::from_str(alloc, "none"),
        Err(fault) => format!(in alloc; "{fault:?}"),
    }
}

/// Adds the text that a body is, in quotes behind a blank, or `no text`.
fn put_text(alloc: Global, out: &mut String, body: &LentBody<'_>) -> Result<(), AllocError> {
    match body.text(alloc)? {
        Some(text) => {
            let text = text.as_str();
            write!(out, " '{text}'")
        }
        None => out.push_str(" no text"),
    }
}

/// Answers whether nothing stands in the body, and the text that it is.
pub(crate) fn text_told(alloc: Global, out: &mut String, text: &str) -> Answer {
    let body = body_of(text)?;
    let is_empty = body.is_empty();
    write!(out, "{is_empty}")?;
    Ok(put_text(alloc, out, &body)?)
}

/// Answers the element that stands first, with an attribute and its text, and the text behind it.
pub(crate) fn told(alloc: Global, out: &mut String, text: &str) -> Answer {
    let mut body = body_of(text)?;
    match body.take_element() {
        Some(element) => put_element(alloc, out, element)?,
        None => out.push_str("no element")?,
    }
    out.push_str(if body.take_element().is_some() {
        ", an element"
    } else {
        ","
    })?;
    Ok(put_text(alloc, out, &body)?)
}

/// Adds an element: its name, its first attribute, whether there are more, and the text in it.
fn put_element(
    alloc: Global,
    out: &mut String,
    element: LentElement<'_>,
) -> Result<(), AllocError> {
    let LentElement {
        name,
        mut attributes,
        body,
    } = element;
    out.push_str(name)?;
    if let Some(LentAttribute { key, value }) = attributes.next() {
        write!(out, " {key}={value}")?;
    }
    out.push_str(if attributes.is_empty() {
        ","
    } else {
        " and more,"
    })?;
    put_text(alloc, out, &body)
}
