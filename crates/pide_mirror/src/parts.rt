//! The parts of a node's commands.
ghost use Rattle.std.specs.Prelude.{◌≡◌, [], ◌++◌, map, slice_get, None, IfOk, IfSome, OnOk, MatchOption};
ghost use Rattle.std.specs.Option.{option_copied, option_map};
ghost use Rattle.std.specs.List.{AllByRecursion};
ghost use Rattle.pide_base.specs.Ids.{IsId};
ghost use Rattle.mirror_rules.specs.Forking.{is_quiet};
ghost use Rattle.mirror_rules.specs.Images.{Image};
ghost use Rattle.pide_mirror.specs.Kept.{IsKept};
ghost use Rattle.pide_mirror.specs.Places.{reports_of};
ghost use Rattle.pide_mirror.specs.Tables.{table_of};
ghost use Rattle.pide_mirror.specs.Looking.{as_node, node_of};
ghost use Rattle.pide_mirror.specs.NodeParts.{as_shown, part_kept, place_forks, evaluation_kept, print_kept, command_kept, commands_kept, node_kept};
ghost use Rattle.pide_mirror.specs.KeptNodes.{IsKeptNode, HasId};

use crate::known::Known;
use crate::place::Place;
use crate::places::Places;
use doc_nodes::{Aliases, Entry, Node};
use mirror_rules::may_fork;
use pide_base::{ExecId, NodeName, PartKind};
use reply_messages::CommandRow;
use report_markup::{Report, ReportKind};
use shared_map::Exactly;
use snapshots::AssignedPart;
use sqlite_items::Items;
use std::alloc::{AllocError, Global};

/// What is known of a node of a version: its text in scalars, and the parts of its commands, in the
/// order of places, those of one command side by side: of the evaluation, of the fork where one
/// follows from it, and of prints. Nothing of it is copied.
#[derive(Drop)]
pub struct NodeParts<'a> {
    pub text: &'a [char],
    pub parts: Items<AssignedPart<'a>>,
}

/// What is kept of a node of a version: the rows of its commands, and the aliases in force there.
#[derive(Clone, Copy)]
struct KeptNode<'a> {
    node: &'a Node,
    rows: &'a [CommandRow],
    aliases: &'a Aliases,
}

/// What the part of a kind reported, where it is finished.
fn reports_of(place: &Place, kind: PartKind) -> Option<&[Report]>
    ensures { option_copied result ≡ reports_of place.now kind }
{
    let reports = match kind {
        PartKind::Eval => &place.eval,
        PartKind::Fork => &place.fork,
        PartKind::Print => &place.print,
    };
    match reports {
        Some(reports) => Some(reports.get().as_slice()),
        None => None,
    }
}

/// A command's part of a kind.
fn part<'a>(
    entry: &Entry,
    kind: PartKind,
    exec: ExecId,
    place: Option<&'a Place>,
) -> AssignedPart<'a>
    ensures { as_shown result ≡ part_kept entry.now kind exec (option_copied place.entry) }
{
    let reports = match place {
        Some(place) => reports_of(place, kind),
        None => None,
    };
    AssignedPart {
        exec,
        span: entry.range,
        reports,
    }
}

/// Whether no error is among the reports.
fn is_quiet(reports: &[Report]) -> bool
    ensures { result ≡ is_quiet reports.now }
{
    reports
        .iter()
        .all(|report| report.kind != ReportKind::Error)
}

/// Whether a command forks.
fn forks(aliases: &Aliases, place: Option<&Place>) -> bool
    ensures { result ≡ place_forks aliases.now (option_copied place.entry) }
{
    let Some(place) = place else {
        return false;
    };
    match &place.eval {
        Some(reports) => {
            may_fork(aliases, place.source.get().as_slice()) && is_quiet(reports.get().as_slice())
        }
        None => false,
    }
}

/// Adds the parts of an evaluation.
fn add_evaluation<'a>(
    parts: &mut Items<AssignedPart<'a>>,
    aliases: &Aliases,
    entry: &Entry,
    exec: ExecId,
    place: Option<&'a Place>,
) -> Result<(), AllocError>
    ensures { OnOk result (map as_shown parts.new ≡ map as_shown parts.old
        ++ evaluation_kept aliases.now entry.now exec (option_copied place.entry)) }
{
    parts.push(part(entry, PartKind::Eval, exec, place))?;
    if forks(aliases, place) {
        parts.push(part(entry, PartKind::Fork, exec, place))?;
    }
    Ok(())
}

/// Adds the parts of prints.
fn add_prints<'a>(
    parts: &mut Items<AssignedPart<'a>>,
    places: &'a Places,
    entry: &Entry,
    prints: &[ExecId],
) -> Result<(), AllocError>
    ensures parts { OnOk result (map as_shown parts.new ≡ map as_shown parts.old
        ++ map (print_kept (table_of places.now) entry.now) prints.now) }
    ensures executions { OnOk result (AllByRecursion IsId prints.now) }
{
    let mut rest = prints;
    'each: while let [print, more @ ..] = rest {
        let place = places.get(*print, entry.command);
        parts.push(part(entry, PartKind::Print, *print, place))?;
        rest = more;
    }
    Ok(())
}

/// Adds the parts of a command that has these executions.
fn add_command<'a>(
    parts: &mut Items<AssignedPart<'a>>,
    places: &'a Places,
    aliases: &Aliases,
    entry: &Entry,
    executions: &[ExecId],
) -> Result<(), AllocError>
    ensures parts { OnOk result (map as_shown parts.new ≡ map as_shown parts.old
        ++ command_kept (table_of places.now) aliases.now entry.now executions.now) }
    ensures executions { OnOk result (AllByRecursion HasId
        (command_kept (table_of places.now) aliases.now entry.now executions.now)) }
{
    let [exec, prints @ ..] = executions else {
        return Ok(());
    };
    let place = places.get(*exec, entry.command);
    add_evaluation(parts, aliases, entry, *exec, place)?;
    add_prints(parts, places, entry, prints)
}

/// Adds the parts of commands, which have these rows.
fn add_commands<'a>(
    parts: &mut Items<AssignedPart<'a>>,
    places: &'a Places,
    aliases: &Aliases,
    entries: &[Entry],
    rows: &[CommandRow],
) -> Result<(), AllocError>
    ensures parts { OnOk result (map as_shown parts.new ≡ map as_shown parts.old
        ++ commands_kept (table_of places.now) aliases.now entries.now rows.now) }
    ensures executions { OnOk result (AllByRecursion HasId
        (commands_kept (table_of places.now) aliases.now entries.now rows.now)) }
{
    let mut commands = entries;
    let mut rest = rows;
    'each: while let [entry, others @ ..] = commands {
        let [row, more @ ..] = rest else {
            return Ok(());
        };
        add_command(parts, places, aliases, entry, row.executions.as_slice())?;
        commands = others;
        rest = more;
    }
    Ok(())
}

/// Adds the parts of a node's commands, which have these rows.
fn add_node<'a>(
    alloc: Global,
    parts: &mut Items<AssignedPart<'a>>,
    places: &'a Places,
    aliases: &Aliases,
    entries: &[Entry],
    rows: &[CommandRow],
) -> Result<(), AllocError>
    ensures parts { OnOk result (map as_shown parts.new ≡ map as_shown parts.old
        ++ node_kept (table_of places.now) aliases.now entries.now rows.now) }
    ensures executions { OnOk result (AllByRecursion HasId
        (node_kept (table_of places.now) aliases.now entries.now rows.now)) }
{
    let ([header, others @ ..], [row, more @ ..]) = (entries, rows) else {
        return Ok(());
    };
    add_header(alloc, parts, places, header, row.executions.as_slice())?;
    add_commands(parts, places, aliases, others, more)
}

/// Adds the parts of a header, in which no aliases are in force.
fn add_header<'a>(
    alloc: Global,
    parts: &mut Items<AssignedPart<'a>>,
    places: &'a Places,
    header: &Entry,
    executions: &[ExecId],
) -> Result<(), AllocError>
    ensures parts { OnOk result (map as_shown parts.new ≡ map as_shown parts.old
        ++ command_kept (table_of places.now) [] header.now executions.now) }
    ensures executions { OnOk result (AllByRecursion HasId
        (command_kept (table_of places.now) [] header.now executions.now)) }
{
    let none = Aliases::new(alloc);
    let added = add_command(parts, places, &none, header, executions);
    drop(none);
    added
}

/// The parts of a node's commands, which have these rows.
fn parts_of<'a>(
    alloc: Global,
    places: &'a Places,
    aliases: &Aliases,
    entries: &[Entry],
    rows: &[CommandRow],
) -> Result<Items<AssignedPart<'a>>, AllocError>
    ensures parts { IfOk result (λ parts. map as_shown parts
        ≡ node_kept (table_of places.now) aliases.now entries.now rows.now) }
    ensures executions { IfOk result (λ parts. AllByRecursion HasId (map as_shown parts)) }
{
    let mut parts = Items::new(alloc);
    match add_node(alloc, &mut parts, places, aliases, entries, rows) {
        Ok(()) => Ok(parts),
        Err(error) => {
            drop(parts);
            Err(error)
        }
    }
}

/// What is kept of the node at a place.
fn kept_at(known: &Known, place: usize) -> Option<KeptNode<'_>>
    ensures { (image : Image) → IsKept known.now image → MatchOption result
        (slice_get image.nodes place ≡ None) (IsKeptNode image place) }
{
    let Some((_, node)) = known.nodes.at(place) else {
        return None;
    };
    let Some(rows) = known.rows.get().as_slice().get(place) else {
        return None;
    };
    let Some(aliases) = known.aliases.get().as_slice().get(place) else {
        return None;
    };
    Some(KeptNode {
        node,
        rows: rows.get().as_slice(),
        aliases: aliases.pairs.get(),
    })
}

/// The node of a name in a version, if it has one. It costs the node's rows, times the logarithm of
/// how many commands of the version have executions, and what is read to tell whether they fork:
/// sources up to the first name, and what evaluations of `by` reported.
pub(crate) fn node_parts<'a>(
    alloc: Global,
    known: &'a Known,
    name: &NodeName,
) -> Result<Option<NodeParts<'a>>, AllocError>
    ensures node { IfOk result (λ found. (image : Image) → IsKept known.now image
        → option_map as_node found ≡ node_of image name.now) }
    ensures executions { IfOk result (λ found. IfSome found
        (λ node. AllByRecursion HasId (map as_shown node.parts))) }
{
    let Some(place) = known.nodes.place_in(&Exactly(name)) else {
        return Ok(None);
    };
    let Some(kept) = kept_at(known, place) else {
        return Ok(None);
    };
    let entries = kept.node.entries.get().as_slice();
    let parts = parts_of(alloc, &known.places, kept.aliases, entries, kept.rows)?;
    Ok(Some(NodeParts {
        text: kept.node.text.get().as_slice(),
        parts,
    }))
}
