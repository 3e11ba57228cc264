//! Texts at their limit.
use crate::asking::Asked;
use crate::buffers::Edited;
use script_lines::{Fault, place};
use sqlite_items::Items;
use std::alloc::Global;
use text_edits::{Edit, Text};

/// A text of so many blanks.
fn blanks(alloc: Global, count: usize) -> Result<Text, Fault> {
    let mut blanks = Vec::with_capacity(alloc, count)?;
    for _ in 0..count {
        blanks.push(' ')?;
    }
    Ok(Text::from_slice(alloc, &blanks)?)
}

/// A blob `x` or a node `A` is given a text.
fn ask(alloc: Global, asked: &mut Asked, what: &str, text: Text) -> Result<(), Fault> {
    match what {
        "blob" => asked.add_blob(alloc, "x", Some(text)),
        "node" => {
            let edits = vec![in alloc; Edit::Insert { start: 0, text }]?;
            asked.add_edits(alloc, "A", Items::from_vec(edits), None)
        }
        _ => Err(Fault::Line),
    }
}

/// What an update comes to that gives a blob or a node a text of so many blanks.
pub(crate) fn answer(alloc: Global, words: &[&str], out: &mut String) -> Result<(), Fault> {
    let [what, count] = words else {
        return Err(Fault::Line);
    };
    let text = blanks(alloc, place(*count)?)?;
    let mut asked = Asked::new(alloc);
    let answer = match ask(alloc, &mut asked, *what, text) {
        Ok(()) => outcome(alloc, &asked, out),
        Err(fault) => Err(fault),
    };
    drop(asked);
    answer
}

/// What an update of nothing comes to.
fn outcome(alloc: Global, asked: &Asked, out: &mut String) -> Result<(), Fault> {
    let mut edited = Edited::new();
    let outcome = edited.outcome(alloc, 0, asked, out);
    drop(edited);
    outcome
}
