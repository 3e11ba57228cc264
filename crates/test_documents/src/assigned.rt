//! What updates of small documents assign and tell (`exec_assign`): each row as its evaluation,
//! with its print behind a `/`, and `|` behind each node.
ghost use Rattle.std.specs.Prelude.{◌≡◌, ◌≤◌, ◌∷◌, [], IfOk};
ghost use Rattle.pide_base.specs.Ids.{IsId, id_end};
ghost use Rattle.exec_assign.specs.Fitting.{RowsFit};
ghost use Rattle.exec_assign.specs.Telling.{update_version};

use doc_nodes::Nodes;
use exec_assign::{
    AssignFault, Assignment, Cancelled, ToldCommand, ToldNode, Update, cancelled_law,
};
use exec_rules::{Blobs, Row, Version, numbers_law};
use pide_base::ExecId;
use script_lines::Fault;
use shared_map::SharedMap;
use sqlite_items::Items;
use std::alloc::{AllocError, Global};

/// The execution of this number is cancelled.
#[derive(Drop)]
struct Only {
    number: u64,
}

impl Cancelled for Only {
    ghost use Rattle.std.specs.Prelude.{◌∷◌, []};

    ghost cancelled = { λ only. only.number ∷ [] };

    fn is_cancelled(&self, execution: ExecId) -> bool {
        execution.number() == self.number
    }
}

/// A version, the number of the next execution, and what its update told.
#[derive(Drop)]
struct Made {
    version: Version,
    next: u64,
    told: Vec<ToldNode>,
}

/// The version before any update, where the next execution is this.
fn start(alloc: Global, next: ExecId) -> Made
    ensures rows { RowsFit result.version }
    ensures blobs { result.version.blobs ≡ [] }
    ensures range { IsId result.next }
{
    Made {
        version: Version {
            nodes: SharedMap::new(),
            blobs: SharedMap::new(),
            assigned: Items::new(alloc),
        },
        next: next.number(),
        told: Vec::new(alloc),
    }
}
/// What the update assigns and tells, from this number on.
fn listed_by(
    alloc: Global,
    update: &Update<'_, Only>,
    next: u64,
) -> Result<(Assignment, Vec<ToldNode>), AssignFault>
    requires first { 1 ≤ next }
    requires next { next ≤ id_end }
    ensures rows { IfOk result (λ pair. RowsFit (update_version update.now pair.0.assigned)) }
    ensures first { IfOk result (λ pair. 1 ≤ pair.0.next) }
    ensures next { IfOk result (λ pair. pair.0.next ≤ id_end) }
{
    numbers_law();
    let assignment = update.assign(alloc, next)?;
    let told = update.listed(alloc, &assignment)?;
    Ok((assignment, told))
}

/// What an update to these nodes assigns and tells, where nothing is known to be untouched.
fn assigned_to(
    alloc: Global,
    before: &Made,
    nodes: &Nodes,
    blobs: &Blobs,
    cancelled: &Only,
) -> Result<(Assignment, Vec<ToldNode>), AssignFault>
    requires rows { RowsFit before.now.version }
    requires blobs { before.now.version.blobs ≡ [] }
    requires none { blobs.now ≡ [] }
    requires first { 1 ≤ before.now.next }
    requires next { before.now.next ≤ id_end }
    ensures rows { IfOk result (λ pair. RowsFit (record {
      nodes = nodes.now;
      blobs = blobs.now;
      assigned = pair.0.assigned;
    })) }
    ensures first { IfOk result (λ pair. 1 ≤ pair.0.next) }
    ensures next { IfOk result (λ pair. pair.0.next ≤ id_end) }
{
    cancelled_law();
    let changed = SharedMap::new();
    let update = Update::of(
        alloc,
        &before.version,
        nodes,
        blobs,
        cancelled,
        &changed,
        &[],
    )?;
    listed_by(alloc, &update, before.next)
}

/// What the update to these nodes makes.
fn updated(
    alloc: Global,
    before: &Made,
    nodes: Nodes,
    cancelled: &Only,
) -> Result<Made, AssignFault>
    requires rows { RowsFit before.now.version }
    requires blobs { before.now.version.blobs ≡ [] }
    requires first { 1 ≤ before.now.next }
    requires next { before.now.next ≤ id_end }
    ensures rows { IfOk result (λ made. RowsFit made.version) }
    ensures blobs { IfOk result (λ made. made.version.blobs ≡ []) }
    ensures first { IfOk result (λ made. 1 ≤ made.next) }
    ensures next { IfOk result (λ made. made.next ≤ id_end) }
{
    let blobs = SharedMap::new();
    let pair = assigned_to(alloc, before, &nodes, &blobs, cancelled)?;
    let (assignment, told) = pair;
    let Assignment { assigned, next, .. } = assignment;
    Ok(Made {
        version: Version {
            nodes,
            blobs,
            assigned,
        },
        next,
        told,
    })
}

/// What the update to these nodes makes, where an execution is cancelled before it.
fn made_of(alloc: Global, before: &Made, nodes: &Nodes, cancelled: u64) -> Result<Made, AssignFault>
    requires rows { RowsFit before.now.version }
    requires blobs { before.now.version.blobs ≡ [] }
    requires first { 1 ≤ before.now.next }
    requires next { before.now.next ≤ id_end }
    ensures rows { IfOk result (λ made. RowsFit made.version) }
    ensures blobs { IfOk result (λ made. made.version.blobs ≡ []) }
    ensures first { IfOk result (λ made. 1 ≤ made.next) }
    ensures next { IfOk result (λ made. made.next ≤ id_end) }
{
    let nodes = nodes.copy()?;
    updated(alloc, before, nodes, &Only { number: cancelled })
}

/// Two updates: the nodes behind the first, the number of an execution that is cancelled then, and
/// the nodes behind the second.
#[derive(Clone, Copy)]
pub(crate) struct Two<'a> {
    pub(crate) before: &'a Nodes,
    pub(crate) cancelled: u64,
    pub(crate) after: &'a Nodes,
}

/// What the second makes.
fn made_by_two(alloc: Global, two: &Two<'_>) -> Result<Made, AssignFault> {
    let first = ExecId::new(1).ok_or(AssignFault::Limit)?;
    let one = made_of(alloc, &start(alloc, first), two.before, 0)?;
    made_of(alloc, &one, two.after, two.cancelled)
}

fn without_limit(made: Result<Made, AssignFault>) -> Result<Made, Fault> {
    match made {
        Ok(made) => Ok(made),
        Err(AssignFault::Limit) => Err(Fault::Line),
        Err(AssignFault::NoMemory) => Err(Fault::NoMemory),
    }
}

fn put_row(out: &mut String, row: &Row) -> Result<(), AllocError> {
    write!(out, "{}", row.evaluation.number())?;
    if let Some(print) = row.print {
        write!(out, "/{}", print.number())?;
    }
    out.push(' ')
}

/// The rows of a node, and the end of them.
fn put_node_rows(out: &mut String, rows: &[Row]) -> Result<(), AllocError> {
    for row in rows {
        put_row(out, row)?;
    }
    out.push('|')
}

/// What the second assigns.
pub(crate) fn put_rows(alloc: Global, two: &Two<'_>, out: &mut String) -> Result<(), Fault> {
    let made = without_limit(made_by_two(alloc, two))?;
    for assigned in made.version.assigned.as_slice() {
        put_node_rows(out, assigned.get().rows.as_slice())?;
    }
    Ok(())
}

fn put_command(out: &mut String, one: &ToldCommand) -> Result<(), AllocError> {
    write!(out, "{} ", one.command.number())?;
    if let Some(row) = &one.row {
        out.push(':')?;
        put_row(out, row)?;
    }
    Ok(())
}

/// A node with its commands.
fn put_told_node(out: &mut String, node: &ToldNode) -> Result<(), AllocError> {
    out.push_str(node.node.as_str())?;
    out.push(' ')?;
    for one in node.commands.as_slice() {
        put_command(out, one)?;
    }
    out.push('|')
}

/// What the second tells: each node with its commands.
pub(crate) fn put_told(alloc: Global, two: &Two<'_>, out: &mut String) -> Result<(), Fault> {
    let made = without_limit(made_by_two(alloc, two))?;
    for node in made.told.as_slice() {
        put_told_node(out, node)?;
    }
    Ok(())
}

fn outcome(made: Result<Made, AssignFault>) -> &'static str {
    match made {
        Ok(_) => "made",
        Err(AssignFault::Limit) => "the limit",
        Err(AssignFault::NoMemory) => "no memory",
    }
}

/// What becomes of a first update to these nodes, where this is the next execution.
pub(crate) fn put_outcome(
    alloc: Global,
    nodes: &Nodes,
    next: u64,
    out: &mut String,
) -> Result<(), Fault> {
    let next = ExecId::new(next).ok_or(Fault::Line)?;
    let before = start(alloc, next);
    let outcome = outcome(made_of(alloc, &before, nodes, 0));
    drop(before);
    Ok(out.push_str(outcome)?)
}
