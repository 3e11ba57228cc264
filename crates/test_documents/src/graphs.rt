//! Graphs of imports by places (`doc_nodes`): a word for each node has the places of its
//! imports between commas, `-` for an import that is no node, and `.` where there is none.
use crate::listed::{put_flags, put_numbers};
use doc_nodes::{in_rounds, marks_of};
use script_lines::{Fault, place};
use sqlite_items::Items;
use std::alloc::Global;

fn aim(word: &str) -> Result<Option<usize>, Fault> {
    if word == "-" {
        return Ok(None);
    }
    Ok(Some(place(word)?))
}

fn add_aims(aims: &mut Items<Option<usize>>, word: &str) -> Result<(), Fault> {
    if word != "." {
        for one in word.split(',') {
            aims.push(aim(one)?)?;
        }
    }
    Ok(())
}

fn aims_of(alloc: Global, word: &str) -> Result<Items<Option<usize>>, Fault> {
    let mut aims = Items::new(alloc);
    add_aims(&mut aims, word)?;
    Ok(aims)
}

fn add_rows(
    alloc: Global,
    rows: &mut Vec<Items<Option<usize>>>,
    words: &[&str],
) -> Result<(), Fault> {
    for word in words {
        rows.push(aims_of(alloc, *word)?)?;
    }
    Ok(())
}

/// The nodes by rounds.
pub(crate) fn answer(alloc: Global, words: &[&str], out: &mut String) -> Result<(), Fault> {
    let mut rows = Vec::new(alloc);
    add_rows(alloc, &mut rows, words)?;
    Ok(put_numbers(out, &in_rounds(alloc, &rows)?)?)
}

/// The marks of the places 2 and 0, of four.
pub(crate) fn answer_marks(alloc: Global, out: &mut String) -> Result<(), Fault> {
    Ok(put_flags(out, &marks_of(alloc, &[2, 0], 4)?)?)
}
