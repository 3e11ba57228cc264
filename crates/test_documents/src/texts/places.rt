//! Where places are after edits of texts, and where they were before (`text_edits`).
use pide_base::Range;
use script_lines::{Answer, Call, Fault};
use std::alloc::{AllocError, Global};
use text_edits::{
    Edit, Text, convert, convert_list, convert_range, convert_range_list, revert, revert_list,
};

/// Answers of places and edits that are always the same.
pub(crate) fn answer(alloc: Global, out: &mut String, call: &Call<'_>) -> Answer {
    match call.verb {
        "moved" => Ok(put_moved(alloc, out)?),
        "moved-through" => Ok(put_moved_through(alloc, out)?),
        _ => Err(Fault::Line),
    }
}

/// Places after an insert of two scalars at 3 and before it, and after a remove of them.
fn put_moved(alloc: Global, out: &mut String) -> Result<(), AllocError> {
    let start = 3;
    let text = Text::from_slice(alloc, &['a', 'b'])?;
    let inserted = Edit::Insert { start, text };
    let text = Text::from_slice(alloc, &['a', 'b'])?;
    let removed = Edit::Remove { start, text };
    let range = convert_range(&removed, Range { start: 2, stop: 6 });
    let places = [
        convert(&inserted, 2),
        convert(&inserted, 3),
        revert(&inserted, 5),
        convert(&removed, 4),
        convert(&removed, 6),
        range.start,
        range.stop,
    ];
    write!(out, "{places:?}")
}

/// Places after two edits and before them.
fn put_moved_through(alloc: Global, out: &mut String) -> Result<(), AllocError> {
    let text = Text::from_slice(alloc, &['a', 'b'])?;
    let inserted = Edit::Insert { start: 0, text };
    let text = Text::from_slice(alloc, &['c'])?;
    let removed = Edit::Remove { start: 4, text };
    let edits = [inserted, removed];
    let range = convert_range_list(&edits, Range { start: 0, stop: 3 });
    let places = [
        convert_list(&edits, 3),
        revert_list(&edits, 4),
        range.start,
        range.stop,
    ];
    write!(out, "{places:?}")
}
