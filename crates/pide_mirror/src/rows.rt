//! The rows of a node, found by their commands.
ghost use Rattle.std.specs.Prelude.{◌≡◌, ◌==◌, ℕ, not, map, find, IfOk, OnOk};
ghost use Rattle.std.specs.Option.{option_copied};
ghost use Rattle.std.specs.List.{list_any};
ghost use Rattle.mirror_rules.specs.Rows.{rows_by};
ghost use Rattle.text_words.specs.Members.{has};
ghost use Rattle.pide_mirror.specs.Kept.{told_rows};
ghost use Rattle.pide_mirror.specs.Indexed.{row_at, executions_in};

use doc_nodes::Entry;
use reply_messages::CommandRow;
use sqlite_items::Items;
use std::alloc::{AllocError, Global};
use std::collections::{HashMap, HashSet};
use std::hash::{BuildHasherDefault, FoldHasher};

/// Rows by the numbers of their commands: the first of each.
pub(crate) type RowIndex<'a> = HashMap<u64, &'a CommandRow, BuildHasherDefault<FoldHasher>, Global>;

/// The rows by their commands.
pub(crate) fn indexed<'a>(alloc: Global, rows: &'a [CommandRow]) -> Result<RowIndex<'a>, AllocError>
    ensures { IfOk result (λ index. (command : ℕ)
        → row_at index.entries command ≡ find (λ row. row.command == command) rows.now) }
{
    let mut index = HashMap::new(alloc);
    let mut rest = rows;
    'rows: while let [row, more @ ..] = rest {
        if index.get(&row.command.number()).is_none() {
            index.insert(row.command.number(), row)?;
        }
        rest = more;
    }
    Ok(index)
}

/// The row of a command, with its executions among these.
fn row_of(alloc: Global, entry: &Entry, index: &RowIndex<'_>) -> Result<CommandRow, AllocError>
    ensures { IfOk result (λ row. (row.command ≡ entry.now.command)
        × (row.executions ≡ executions_in (row_at index.now.entries entry.now.command))) }
{
    let executions = match index.get(&entry.command.number()) {
        Some(row) => Items::from_slice(alloc, row.executions.as_slice())?,
        None => Items::new(alloc),
    };
    Ok(CommandRow {
        command: entry.command,
        executions,
    })
}

/// The rows of a node's commands, in the order of their places: for each the first of its rows
/// among these, if there is one.
pub(crate) fn rows_of(
    alloc: Global,
    entries: &[Entry],
    rows: &[CommandRow],
) -> Result<Items<CommandRow>, AllocError>
    ensures { IfOk result (λ made. told_rows made ≡ rows_by entries.now (told_rows rows.now)) }
{
    let index = indexed(alloc, rows)?;
    let mut made = Vec::new(alloc);
    'entries: for entry in entries {
        made.push(row_of(alloc, entry, &index)?)?;
    }
    Ok(Items::from_vec(made))
}

/// Whether a row is of none of the commands.
pub(crate) fn has_unknown(
    alloc: Global,
    entries: &[Entry],
    rows: &[CommandRow],
) -> Result<bool, AllocError>
    ensures { IfOk result (λ unknown. unknown
        ≡ list_any (λ row. not (has (map (λ e. e.command) entries.now) row.command)) rows.now) }
{
    let commands = commands_of(alloc, entries)?;
    let mut rest = rows;
    'rows: while let [row, more @ ..] = rest {
        if !commands.contains(&row.command.number()) {
            return Ok(true);
        }
        rest = more;
    }
    Ok(false)
}

/// The numbers of the commands.
fn commands_of(
    alloc: Global,
    entries: &[Entry],
) -> Result<HashSet<u64, BuildHasherDefault<FoldHasher>, Global>, AllocError>
    ensures { IfOk result (λ commands. (id : ℕ) → list_any (λ key. id == key) commands.keys
        ≡ has (map (λ e. e.command) entries.now) id) }
{
    let mut commands = HashSet::new(alloc);
    'entries: for entry in entries {
        commands.insert(entry.command.number())?;
    }
    Ok(commands)
}
