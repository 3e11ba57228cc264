//! What messages ask, in words.
use crate::shared::put_scalars;
use message_values::{Change, EditorMessage, Item, Perspective, Protocol};
use std::alloc::AllocError;
use text_edits::{Edit, Text};

/// Adds what the message asks.
pub(crate) fn put_content(out: &mut String, message: &EditorMessage) -> Result<(), AllocError> {
    match message {
        EditorMessage::Update {
            version,
            items,
            blobs,
        } => put_update(out, version.number(), items.as_slice(), blobs.len()),
        EditorMessage::Cancel { exec } => put_numbered(out, "cancel", exec.number()),
        EditorMessage::Claim { worker } => put_numbered(out, "claim", worker.number()),
        EditorMessage::Protocol { protocol } => put_protocol(out, *protocol),
        EditorMessage::Theory { node, text } => put_theory(out, node.as_str(), text.len()),
        _ => out.push_str("another function"),
    }
}

/// Adds a word and a number.
fn put_numbered(out: &mut String, word: &str, number: u64) -> Result<(), AllocError> {
    write!(out, "{word} {number}")
}

/// Adds a protocol by its name and its number.
fn put_protocol(out: &mut String, protocol: Protocol) -> Result<(), AllocError> {
    let number = protocol.number();
    write!(out, "protocol {protocol:?} {number}")
}

/// Adds a theory by its node and the number of its scalars.
fn put_theory(out: &mut String, node: &str, len: usize) -> Result<(), AllocError> {
    write!(out, "theory {node} of {len} scalars")
}

/// Adds the version of an update, its items, and the number of its blobs.
fn put_update(
    out: &mut String,
    version: u64,
    items: &[Item],
    blobs: usize,
) -> Result<(), AllocError> {
    write!(out, "update {version}")?;
    for item in items {
        put_item(out, item)?;
    }
    write!(out, "; {blobs} blobs")
}

/// Adds an item.
fn put_item(out: &mut String, item: &Item) -> Result<(), AllocError> {
    out.push_str("; ")?;
    out.push_str(item.node.as_str())?;
    match &item.change {
        Change::Edit { edits, perspective } => {
            put_edits(out, edits.as_slice())?;
            put_perspective(out, perspective.as_ref())
        }
        Change::Close => out.push_str(" is closed"),
    }
}

/// Adds edits.
fn put_edits(out: &mut String, edits: &[Edit]) -> Result<(), AllocError> {
    for edit in edits {
        match edit {
            Edit::Insert { start, text } => put_edit(out, "insert", *start, text)?,
            Edit::Remove { start, text } => put_edit(out, "remove", *start, text)?,
        }
    }
    Ok(())
}

/// Adds an edit.
fn put_edit(out: &mut String, way: &str, start: usize, text: &Text) -> Result<(), AllocError> {
    write!(out, ", {way} {start} ")?;
    put_scalars(out, text.as_slice())
}

/// Adds what is shown of a node.
fn put_perspective(out: &mut String, shown: Option<&Perspective>) -> Result<(), AllocError> {
    let Some(shown) = shown else {
        return Ok(());
    };
    out.push_str(if shown.required {
        ", required"
    } else {
        ", not required"
    })?;
    for range in shown.ranges.as_slice() {
        let start = range.start;
        let stop = range.stop;
        write!(out, ", shown {start} to {stop}")?;
    }
    Ok(())
}
