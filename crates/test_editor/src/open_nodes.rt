//! One node as the editor has it (`editor_buffer`), and its commands (`editor_buffer`).
use crate::sharing::shared;
use buffer_rules::Sheet;
use doc_nodes::{Aliases, Entry};
use editor_buffer::{
    OldCommands, OpenNode, Source, command_ranges, entries_of, kept_runs, sources, uncut,
};
use joined_results::both;
use pide_base::Range;
use script_lines::Fault;
use sqlite_items::Items;
use std::alloc::{AllocError, Global};
use text_edits::{Edit, Text};

/// A node of this text, not cut yet.
fn node_of(alloc: Global, text: &str) -> Result<OpenNode, Fault> {
    let text = Text::from_str(alloc, text)?;
    let edits = [Edit::Insert { start: 0, text }];
    let node = edited(alloc, OpenNode::blank(alloc), &edits);
    drop(edits);
    node
}

fn edited(
    alloc: Global,
    node: Result<OpenNode, AllocError>,
    edits: &[Edit],
) -> Result<OpenNode, Fault> {
    let node = node?;
    let edited = node.edited(alloc, edits, &None);
    drop(node);
    match edited {
        Ok(edited) => Ok(edited),
        Err(_) => Err(Fault::Line),
    }
}

/// The commands at these places, of a node that had none: their ids are 5 and so on.
fn new_entries(
    alloc: Global,
    sheet: &Sheet,
    aliases: &Aliases,
    ranges: &[Range],
) -> Result<Items<Entry>, Fault> {
    if ranges.len() > 100 {
        return Err(Fault::Line);
    }
    let old = OldCommands {
        text: &[],
        entries: &[],
        same_aliases: false,
    };
    let before = old.sources(alloc)?;
    let now = sources(alloc, sheet.text.get().as_slice(), ranges)?;
    let runs = kept_runs(&before, &now);
    Ok(entries_of(alloc, sheet, aliases, &old, ranges, &runs, 5)?)
}

fn put_ids(out: &mut String, entries: &[Entry]) -> Result<(), AllocError> {
    for entry in entries {
        write!(out, "{} ", entry.command.number())?;
    }
    Ok(())
}

/// Whether it was cut.
fn cut_word(node: &OpenNode) -> &'static str {
    match node.cut_under() {
        Some(_) => "cut",
        None => "uncut",
    }
}

/// Whether the node was cut, and the ids of its commands.
fn put_commands(alloc: Global, text: &str, out: &mut String) -> Result<(), Fault> {
    let node = node_of(alloc, text)?;
    let put = put_commands_of(alloc, &node, out);
    drop(node);
    put
}

fn put_commands_of(alloc: Global, node: &OpenNode, out: &mut String) -> Result<(), Fault> {
    write!(out, "{}: ", cut_word(node))?;
    let aliases = Aliases::new(alloc);
    let entries = entries_under(alloc, node, &aliases);
    drop(aliases);
    let entries = entries?;
    let put = put_ids(out, entries.as_slice());
    drop(entries);
    Ok(put?)
}

/// The commands of the node.
fn entries_under(alloc: Global, node: &OpenNode, aliases: &Aliases) -> Result<Items<Entry>, Fault> {
    let ranges = ranges_of(alloc, node, aliases)?;
    let entries = new_entries(alloc, node.sheet(), aliases, &ranges);
    drop(ranges);
    entries
}

/// Where the commands of the node stand.
fn ranges_of(alloc: Global, node: &OpenNode, aliases: &Aliases) -> Result<Vec<Range>, AllocError> {
    let spans = node.spans_under(alloc, aliases)?;
    let ranges = command_ranges(alloc, spans.get());
    drop(spans);
    ranges
}

/// The node, cut under no aliases.
fn cut(alloc: Global, node: &OpenNode) -> Result<OpenNode, AllocError> {
    let aliases = shared(alloc, Aliases::new(alloc))?;
    let spans = node.spans_under(alloc, aliases.get())?;
    node.with_cut(spans, aliases)
}

/// Whether a copy of the node was cut.
fn copied_word(node: &OpenNode) -> Result<&'static str, AllocError> {
    let copy = node.copy()?;
    let word = cut_word(&copy);
    drop(copy);
    Ok(word)
}

/// Whether a copy of the node was cut, once it is.
fn put_cut(alloc: Global, text: &str, out: &mut String) -> Result<(), Fault> {
    let node = node_of(alloc, text)?;
    let cut = cut(alloc, &node);
    drop(node);
    let cut = cut?;
    let word = copied_word(&cut);
    drop(cut);
    Ok(out.push_str(word?)?)
}

/// How many imports and scalars the node has, uncut.
fn put_header(alloc: Global, text: &str, out: &mut String) -> Result<(), Fault> {
    let node = node_of(alloc, text)?;
    let bare = uncut(alloc, node.sheet());
    drop(node);
    let bare = bare?;
    let imports = bare.imports.get().len();
    let scalars = bare.text.get().len();
    drop(bare);
    Ok(write!(out, "{imports} imports, {scalars} scalars")?)
}

/// Each scalar of a text as a range.
fn each_of(alloc: Global, count: usize) -> Result<Vec<Range>, AllocError> {
    let mut ranges = Vec::new(alloc);
    for start in 0..count {
        let stop = start.saturating_add(1);
        ranges.push(Range { start, stop })?;
    }
    Ok(ranges)
}

/// How many one-scalar commands of a text are kept at its front and at its back, where it had all
/// but the first before.
fn put_runs(alloc: Global, text: &str, out: &mut String) -> Result<(), Fault> {
    let text: Vec<char> = text.chars().collect(alloc)?;
    let put = put_runs_of(alloc, text.as_slice(), out);
    drop(text);
    put
}

fn put_runs_of(alloc: Global, text: &[char], out: &mut String) -> Result<(), Fault> {
    let each = each_of(alloc, text.len())?;
    let put = put_runs_at(alloc, text, each.as_slice(), out);
    drop(each);
    put
}

/// The same, where these are its scalars as ranges.
fn put_runs_at(
    alloc: Global,
    text: &[char],
    each: &[Range],
    out: &mut String,
) -> Result<(), Fault> {
    let [_, others @ ..] = each else {
        return Err(Fault::Line);
    };
    let (before, now) = both(sources(alloc, text, others), sources(alloc, text, each))?;
    let put = put_kept(&before, &now, out);
    drop(before);
    drop(now);
    Ok(put?)
}

/// The first command of a text, and how many are kept at its front and at its back.
fn put_kept(before: &[Source<'_>], now: &[Source<'_>], out: &mut String) -> Result<(), AllocError> {
    if let Some(first) = now.first() {
        for scalar in first.as_slice() {
            out.push(*scalar)?;
        }
    }
    let kept = kept_runs(before, now);
    write!(out, ": {} {}", kept.front(), kept.back())
}

pub(crate) fn answer(alloc: Global, words: &[&str], out: &mut String) -> Result<(), Fault> {
    let [verb, text] = words else {
        return Err(Fault::Line);
    };
    match *verb {
        "commands" => put_commands(alloc, *text, out),
        "cut" => put_cut(alloc, *text, out),
        "header" => put_header(alloc, *text, out),
        "runs" => put_runs(alloc, *text, out),
        _ => Err(Fault::Line),
    }
}
