//! What is seen of nodes.
use crate::asking::named;
use crate::mirror::telling::put_look;
use pide_base::VersionId;
use pide_mirror::Mirror;
use script_lines::{Answer, Call, Fault, joined, place};
use std::alloc::Global;
use text_edits::{Edit, Text};

/// Tells what is seen of the node that a call names, in a version and behind edits.
pub(crate) fn look(alloc: Global, mirror: &Mirror, call: &Call, out: &mut String) -> Answer {
    let [_, _, words @ ..] = call.words else {
        return Err(Fault::Line);
    };
    let version = VersionId::new(call.number(0)?).ok_or(Fault::Line)?;
    let name = call.word(1)?;
    let (node, edits) = joined(named(alloc, name), edits_of(alloc, words))?;
    put_look(
        out,
        mirror.snapshot(alloc, version, &node, edits.as_slice()),
    )
}

/// The edits of these words, three for each.
fn edits_of(alloc: Global, words: &[&str]) -> Result<Vec<Edit>, Fault> {
    let mut edits = Vec::new(alloc);
    let mut rest = words;
    while let [way, start, text, more @ ..] = rest {
        edits.push(edit_of(alloc, *way, place(*start)?, *text)?)?;
        rest = more;
    }
    if rest.is_empty() {
        Ok(edits)
    } else {
        Err(Fault::Line)
    }
}

/// The edit at a place.
fn edit_of(alloc: Global, way: &str, start: usize, text: &str) -> Result<Edit, Fault> {
    let text = Text::from_str(alloc, text)?;
    match way {
        "insert" => Ok(Edit::Insert { start, text }),
        "remove" => Ok(Edit::Remove { start, text }),
        _ => Err(Fault::Line),
    }
}
