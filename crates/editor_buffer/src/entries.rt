//! The commands of a node, with their ids.
ghost use Rattle.std.specs.Prelude.{◌≡◌, ◌+◌, ◌-◌, ◌≤◌, ◌++◌, map, length, IsTrue, IfOk, OnOk};
ghost use Rattle.std.specs.List.{AllZip, range_with_len, zip};
ghost use Rattle.shared_map.specs.Pairs.{Each};
ghost use Rattle.pide_base.specs.Ids.{id_end};
ghost use Rattle.doc_nodes.specs.Needs.{needs};
ghost use Rattle.buffer_rules.specs.Cuts.{source};
ghost use Rattle.buffer_rules.specs.Numbers.{kept_runs, ids_of};
ghost use Rattle.buffer_rules.specs.Nodes.{entry};
ghost use Rattle.editor_buffer.specs.Commands.{sources_in, commands_in, AsksFor, AskUnder};
ghost use Rattle.editor_buffer.specs.Spread.{ShowAlike};

use crate::asking::asked_by;
use crate::old::OldCommands;
use crate::runs::KeptRuns;
use crate::seen::Seen;
use buffer_rules::{Sheet, kept_law};
use doc_nodes::{Aliases, Entry, needs};
use outer_syntax::scalars;
use pide_base::{CommandId, Range};
use sqlite_items::Items;
use std::alloc::{AllocError, Global};

/// A command that keeps its id, at its new place.
fn kept_entry(
    alloc: Global,
    sheet: &Sheet,
    seen: &Seen,
    aliases: &Aliases,
    old: &Entry,
    same: bool,
    range: Range,
) -> Result<Entry, AllocError>
    requires seen { ShowAlike seen.now sheet.now.ranges }
    requires asked { IsTrue same → AsksFor aliases.now (source sheet.now.text range) old.now }
    ensures { IfOk result (λ made. made ≡ entry sheet.now aliases.now (old.now.command, range)) }
{
    let source = scalars(sheet.text.get().as_slice(), range);
    let needs = asked_by(alloc, old, same, source, aliases)?;
    Ok(Entry {
        command: old.command,
        range,
        visible: seen.shows(range),
        needs,
    })
}

/// A command with a new id.
fn new_entry(
    alloc: Global,
    sheet: &Sheet,
    seen: &Seen,
    aliases: &Aliases,
    command: CommandId,
    range: Range,
) -> Result<Entry, AllocError>
    requires { ShowAlike seen.now sheet.now.ranges }
    ensures { IfOk result (λ made. made ≡ entry sheet.now aliases.now (command, range)) }
{
    let source = scalars(sheet.text.get().as_slice(), range);
    let needs = needs(alloc, source, aliases)?;
    Ok(Entry {
        command,
        range,
        visible: seen.shows(range),
        needs,
    })
}

/// Adds commands that keep their ids, at these places.
fn push_kept(
    alloc: Global,
    sheet: &Sheet,
    seen: &Seen,
    aliases: &Aliases,
    before: &[Entry],
    same: bool,
    ranges: &[Range],
    entries: &mut Items<Entry>,
) -> Result<(), AllocError>
    requires seen { ShowAlike seen.now sheet.now.ranges }
    requires asked { IsTrue same → AllZip (λ e r. AsksFor aliases.now (source sheet.now.text r) e)
        before.now ranges.now }
    ensures { OnOk result (entries.new ≡ entries.old ++ map (entry sheet.now aliases.now)
        (zip (map (λ e. e.command) before.now) ranges.now)) }
{
    let mut olds = before;
    let mut rest = ranges;
    'kept: while let [old, more @ ..] = olds {
        let [range, others @ ..] = rest else {
            return Ok(());
        };
        entries.push(kept_entry(alloc, sheet, seen, aliases, old, same, *range)?)?;
        olds = more;
        rest = others;
    }
    Ok(())
}

/// Adds commands with the next ids, at these places.
fn push_new(
    alloc: Global,
    sheet: &Sheet,
    seen: &Seen,
    aliases: &Aliases,
    next: u64,
    ranges: &[Range],
    entries: &mut Items<Entry>,
) -> Result<(), AllocError>
    requires seen { ShowAlike seen.now sheet.now.ranges }
    requires first { 1 ≤ next }
    requires last { next + length ranges.now ≤ id_end }
    ensures { OnOk result (entries.new ≡ entries.old ++ map (entry sheet.now aliases.now)
        (zip (range_with_len next (length ranges.now)) ranges.now)) }
{
    let mut id = next;
    let mut rest = ranges;
    'new: while let [range, more @ ..] = rest {
        entries.push(new_entry(alloc, sheet, seen, aliases, CommandId::numbered(id), *range)?)?;
        id += 1;
        rest = more;
    }
    Ok(())
}

/// The commands at these places of a sheet, with their ids: those that keep theirs, which are told,
/// and the next ones.
pub fn entries_of(
    alloc: Global,
    sheet: &Sheet,
    aliases: &Aliases,
    old: &OldCommands,
    ranges: &[Range],
    runs: &KeptRuns,
    next: u64,
) -> Result<Items<Entry>, AllocError>
    requires asked { IsTrue old.now.same_aliases
        → AskUnder aliases.now old.now.text.now old.now.entries.now }
    requires kept { runs.now ≡ kept_runs (sources_in old.now.text.now old.now.entries.now)
        (map (source sheet.now.text) ranges.now) }
    requires old { runs.now.front + runs.now.back ≤ length old.now.entries.now }
    requires now { runs.now.front + runs.now.back ≤ length ranges.now }
    requires first { 1 ≤ next }
    requires last { next + (length ranges.now - runs.now.front - runs.now.back) ≤ id_end }
    ensures { IfOk result (λ entries. entries ≡ map (entry sheet.now aliases.now)
        (zip (ids_of (commands_in old.now.text.now old.now.entries.now)
        (map (source sheet.now.text) ranges.now) next) ranges.now)) }
{
    kept_law();
    let front = runs.front();
    let back = runs.back();
    let first = &old.entries[..front];
    let last = &old.entries[old.entries.len() - back..];
    let same = old.same_aliases;
    let seen = Seen::of(alloc, sheet.ranges.get().as_slice())?;
    let mut entries = Items::new(alloc);
    push_kept(
        alloc,
        sheet,
        &seen,
        aliases,
        first,
        same,
        &ranges[..front],
        &mut entries,
    )?;
    let stop = ranges.len() - back;
    push_new(
        alloc,
        sheet,
        &seen,
        aliases,
        next,
        &ranges[front..stop],
        &mut entries,
    )?;
    push_kept(
        alloc,
        sheet,
        &seen,
        aliases,
        last,
        same,
        &ranges[stop..],
        &mut entries,
    )?;
    Ok(entries)
}
