//! What an update makes of what is known of the tip.
ghost use Rattle.std.specs.Prelude.{◌≡◌, ◌==◌, ◌&&◌, ℕ, not, IfOk, OnOk, Some, None, if◌then◌else◌};
ghost use Rattle.std.specs.Option.{option_or, option_copied};
ghost use Rattle.text_words.specs.Members.{has};
ghost use Rattle.text_words.specs.Pieces.{text_between};
ghost use Rattle.pide_mirror.specs.Indexed.{row_at, executions_in};
ghost use Rattle.pide_mirror.specs.Renewed.{is_stale, stale_of, stale_in, made_for, fresh_row, fresh_in, fresh_all, gives};
ghost use Rattle.pide_mirror.specs.Tables.{table_of};

use crate::known::{Known, Rows};
use crate::place::Place;
use crate::places::Places;
use crate::rows::{RowIndex, indexed};
use doc_nodes::{Node, Nodes, Shared};
use pide_base::{CommandId, ExecId, NodeName, Range};
use reply_messages::CommandRow;
use shared_map::Exactly;
use std::alloc::{AllocError, Global};
use text_edits::Text;

/// The rows of a node of the new version, and whether they are those of the same node of the tip.
#[derive(Drop)]
pub struct NewRows {
    pub(crate) rows: Rows,
    pub(crate) stays: bool,
}

/// The commands that have executions: those of the tip, without those that have an execution no
/// more, and with those that have a new one.
pub(crate) fn all_places(
    alloc: Global,
    tip: &Known,
    nodes: &Nodes,
    made: &[NewRows],
) -> Result<Places, AllocError>
    ensures { IfOk result (λ places. (e c : ℕ) → table_of places e c ≡ option_or
        (if stale_in (made_for nodes.now made.now) tip.now.nodes tip.now.rows e c
        then None else table_of tip.now.places e c) (fresh_all nodes.now made.now e c)) }
{
    let mut places = tip.places.copy()?;
    leave_stale(alloc, tip, nodes, made, &mut places)?;
    add_new(alloc, nodes, made, &mut places)?;
    Ok(places)
}

/// Takes out what the new version doesn't have.
fn leave_stale(
    alloc: Global,
    tip: &Known,
    nodes: &Nodes,
    made: &[NewRows],
    places: &mut Places,
) -> Result<(), AllocError>
    ensures { OnOk result ((e c : ℕ) → table_of places.new e c
        ≡ (if stale_in (made_for nodes.now made.now) tip.now.nodes tip.now.rows e c
        then None else table_of places.old e c)) }
{
    let mut rest = tip.nodes.iter();
    let mut old = tip.rows.get().as_slice();
    'nodes: while let Some((name, _)) = rest.next() {
        let [rows, more @ ..] = old else {
            return Ok(());
        };
        let rows = rows.get().as_slice();
        leave_stale_of(alloc, rows, new_rows(nodes, made, name), places)?;
        old = more;
    }
    Ok(())
}

/// What is made of the node of a name, where the new version has it.
fn new_rows<'a>(nodes: &Nodes, made: &'a [NewRows], name: &NodeName) -> Option<&'a NewRows>
    ensures { option_copied result ≡ made_for nodes.now made.now name.now }
{
    match nodes.place_in(&Exactly(name)) {
        Some(place) => made.get(place),
        None => None,
    }
}

/// The same for a node that has these rows in the tip.
fn leave_stale_of(
    alloc: Global,
    rows: &[CommandRow],
    made: Option<&NewRows>,
    places: &mut Places,
) -> Result<(), AllocError>
    ensures { OnOk result ((e c : ℕ) → table_of places.new e c
        ≡ (if stale_of rows.now (option_copied made.entry) e c
        then None else table_of places.old e c)) }
{
    match made {
        Some(new) if new.stays => Ok(()),
        Some(new) => leave_rows(
            alloc,
            rows,
            &indexed(alloc, new.rows.get().as_slice())?,
            places,
        ),
        None => leave_rows(alloc, rows, &indexed(alloc, &[])?, places),
    }
}

/// Takes out what these rows have and those of the index don't.
fn leave_rows(
    alloc: Global,
    rows: &[CommandRow],
    kept: &RowIndex<'_>,
    places: &mut Places,
) -> Result<(), AllocError>
    ensures { OnOk result ((e c : ℕ) → table_of places.new e c
        ≡ (if is_stale rows.now (λ command. executions_in (row_at kept.now.entries command)) e c
        then None else table_of places.old e c)) }
{
    let mut rest = rows;
    'rows: while let [row, more @ ..] = rest {
        leave_row(alloc, row, kept_of(kept, row.command), places)?;
        rest = more;
    }
    Ok(())
}

/// The executions of a command.
fn kept_of<'a>(kept: &'a RowIndex<'_>, command: CommandId) -> &'a [ExecId]
    ensures { result.now ≡ executions_in (row_at kept.now.entries command) }
{
    match kept.get(&command.number()) {
        Some(row) => row.executions.as_slice(),
        None => &[],
    }
}

/// Takes out what a row has, but for the executions that are kept.
fn leave_row(
    alloc: Global,
    row: &CommandRow,
    kept: &[ExecId],
    places: &mut Places,
) -> Result<(), AllocError>
    ensures { OnOk result ((e c : ℕ) → table_of places.new e c
        ≡ (if gives row.now e c && not (has kept.now e) then None else table_of places.old e c)) }
{
    let mut rest = row.executions.as_slice();
    'executions: while let [exec, more @ ..] = rest {
        if !kept.contains(exec) {
            places.take_out(alloc, *exec, row.command)?;
        }
        rest = more;
    }
    Ok(())
}

/// Puts in what the new version has and the tip hasn't.
fn add_new(
    alloc: Global,
    nodes: &Nodes,
    made: &[NewRows],
    places: &mut Places,
) -> Result<(), AllocError>
    ensures { OnOk result ((e c : ℕ) → table_of places.new e c
        ≡ option_or (table_of places.old e c) (fresh_all nodes.now made.now e c)) }
{
    let mut rest = nodes.iter();
    let mut rows = made;
    'nodes: while let Some((_, node)) = rest.next() {
        let [new, more @ ..] = rows else {
            return Ok(());
        };
        if !new.stays {
            add_rows(alloc, node, new.rows.get().as_slice(), places)?;
        }
        rows = more;
    }
    Ok(())
}

/// The same for the commands of a node, which have these rows.
#[tactic(auto, using(crate::proofs::ComingIn::nothing_fresh))]
fn add_rows(
    alloc: Global,
    node: &Node,
    rows: &[CommandRow],
    places: &mut Places,
) -> Result<(), AllocError>
    ensures { OnOk result ((e c : ℕ) → table_of places.new e c ≡ option_or (table_of places.old e c)
        (fresh_in node.now.text node.now.entries rows.now e c)) }
{
    let text = node.text.get().as_slice();
    let mut entries = node.entries.get().as_slice();
    let mut rest = rows;
    'commands: while let [entry, others @ ..] = entries {
        let [row, more @ ..] = rest else {
            return Ok(());
        };
        add_row(alloc, source_in(text, entry.range), row, places)?;
        entries = others;
        rest = more;
    }
    Ok(())
}

/// The same for a command of this source.
fn add_row(
    alloc: Global,
    source: &[char],
    row: &CommandRow,
    places: &mut Places,
) -> Result<(), AllocError>
    ensures { OnOk result ((e c : ℕ) → table_of places.new e c
        ≡ option_or (table_of places.old e c) (fresh_row source.now row.now e c)) }
{
    let mut rest = row.executions.as_slice();
    'executions: while let [exec, more @ ..] = rest {
        if places.get(*exec, row.command).is_none() {
            let place = Place::new(shared_text(alloc, source)?);
            places.put(alloc, *exec, row.command, place)?;
        }
        rest = more;
    }
    Ok(())
}

/// The part of a text that a range takes.
fn source_in(text: &[char], range: Range) -> &[char]
    ensures { result.now ≡ text_between text.now range.start range.stop }
{
    let rest = &text[range.start.min(text.len())..];
    &rest[..range.stop.saturating_sub(range.start).min(rest.len())]
}

fn shared_text(alloc: Global, text: &[char]) -> Result<Shared<Text>, AllocError>
    ensures { IfOk result (λ shared. shared ≡ text.now) }
{
    match Shared::new(alloc, Text::from_slice(alloc, text)?) {
        Ok(text) => Ok(text),
        Err(text) => {
            drop(text);
            Err(AllocError)
        }
    }
}
