//! Where places of a text are after an edit, and where they were before it.
ghost use Rattle.std.specs.Prelude.{◌≡◌, ◌^◌, ◌<◌, length};
ghost use Rattle.text_edits.specs.Offsets.{later, earlier, convert, revert, convert_list, revert_list, ConvertsBelow, RevertsBelow};

use crate::edit::Edit;
use pide_base::Range;

/// The place after `count` scalars were put in at `start`.
fn later(start: usize, count: usize, offset: usize) -> usize
    requires { later start count offset < 2 ^ 64 }
    ensures { result ≡ later start count offset }
{
    if offset < start {
        offset
    } else {
        offset + count
    }
}

/// The place after `count` scalars were taken out at `start`.
fn earlier(start: usize, count: usize, offset: usize) -> usize
    ensures { result ≡ earlier start count offset }
{
    if offset < start {
        offset
    } else {
        offset.saturating_sub(count).max(start)
    }
}

/// Where a place of the text before the edit is in the text after it. All count scalars.
pub fn convert(edit: &Edit, offset: usize) -> usize
    requires { convert edit.now offset < 2 ^ 64 }
    ensures { result ≡ convert edit.now offset }
{
    match edit {
        Edit::Insert { start, text } => later(*start, text.len(), offset),
        Edit::Remove { start, text } => earlier(*start, text.len(), offset),
    }
}

/// Where a place of the text after the edit was in the text before it.
pub fn revert(edit: &Edit, offset: usize) -> usize
    requires { revert edit.now offset < 2 ^ 64 }
    ensures { result ≡ revert edit.now offset }
{
    match edit {
        Edit::Insert { start, text } => earlier(*start, text.len(), offset),
        Edit::Remove { start, text } => later(*start, text.len(), offset),
    }
}

/// The range between the converted ends.
pub fn convert_range(edit: &Edit, range: Range) -> Range
    requires start { convert edit.now range.start < 2 ^ 64 }
    requires stop { convert edit.now range.stop < 2 ^ 64 }
    ensures start { result.start ≡ convert edit.now range.start }
    ensures stop { result.stop ≡ convert edit.now range.stop }
{
    Range {
        start: convert(edit, range.start),
        stop: convert(edit, range.stop),
    }
}

/// Where a place is after the edits, made one after the other.
pub fn convert_list(edits: &[Edit], offset: usize) -> usize
    requires { ConvertsBelow (2 ^ 64) edits.now offset }
    ensures { result ≡ convert_list edits.now offset }
{
    let mut place = offset;
    'edits: for edit in edits {
        place = convert(edit, place);
    }
    place
}

/// Where a place was before the edits: the last one is reverted first.
pub fn revert_list(edits: &[Edit], offset: usize) -> usize
    requires { RevertsBelow (2 ^ 64) edits.now offset }
    ensures { result ≡ revert_list edits.now offset }
{
    let mut place = offset;
    let mut rest = edits;
    'edits: while let Some((last, before)) = rest.split_last() {
        place = revert(last, place);
        rest = before;
    }
    place
}

/// The range between the ends, converted through the edits one after the other.
pub fn convert_range_list(edits: &[Edit], range: Range) -> Range
    requires start { ConvertsBelow (2 ^ 64) edits.now range.start }
    requires stop { ConvertsBelow (2 ^ 64) edits.now range.stop }
    ensures start { result.start ≡ convert_list edits.now range.start }
    ensures stop { result.stop ≡ convert_list edits.now range.stop }
{
    Range {
        start: convert_list(edits, range.start),
        stop: convert_list(edits, range.stop),
    }
}
