//! What an update tells.
ghost use Rattle.std.specs.Prelude.{◌≡◌, ◌==◌, ℕ, List, ◌∷◌, ◌++◌, [], not, map, filter, slice_index_or, slice_get, Some, IfOk, OnOk};
ghost use Rattle.shared_map.specs.Pairs.{IsSorted};
ghost use Rattle.doc_nodes.specs.Looks.{marked};
ghost use Rattle.doc_nodes.specs.Names.{in_order};
ghost use Rattle.exec_rules.specs.Keys.{nothing_assigned};
ghost use Rattle.doc_nodes.specs.declared.node.Node.{Node};
ghost use Rattle.exec_rules.specs.Listed.{told_commands, print_list, same_by, same_told, is_other, listed};
ghost use Rattle.exec_assign.specs.Telling.{update_version};
ghost use Rattle.exec_assign.specs.Told.{told_row, told_command, told_node, told_at};
ghost use Rattle.exec_assign.specs.Work.{HaveStood};

use crate::assigning::Assignment;
use crate::cancelled::Cancelled;
use crate::told::{ToldCommand, ToldNode};
use crate::update::Update;
use doc_nodes::{Entry, Node, Nodes};
use exec_rules::Row;
use pide_base::{ExecId, NodeName};
use sqlite_items::Items;
use std::alloc::{AllocError, Global};

/// The commands, of which the first have these rows.
fn told_commands(
    alloc: Global,
    entries: &[Entry],
    rows: &[Row],
) -> Result<Items<ToldCommand>, AllocError>
    ensures { IfOk result (λ all. map told_command all ≡ told_commands entries.now rows.now) }
{
    let mut all = Items::new(alloc);
    'commands: for place in 0..entries.len() {
        add_command(&mut all, &entries[place], row_at(rows, place))?;
    }
    Ok(all)
}

/// The row at the place, if there is one.
fn row_at(rows: &[Row], place: usize) -> Option<Row>
    ensures { result ≡ slice_get rows.now place }
{
    match rows.get(place) {
        Some(row) => Some(*row),
        None => None,
    }
}

/// Adds a command with this row.
fn add_command(
    all: &mut Items<ToldCommand>,
    entry: &Entry,
    row: Option<Row>,
) -> Result<(), AllocError>
    ensures { OnOk result (map told_command all.new ≡ map told_command all.old
        ++ (entry.now.command, told_row row) ∷ []) }
{
    all.push(ToldCommand {
        command: entry.command,
        row,
    })
}

/// Whether the commands with these rows are told otherwise than those before with the old ones.
fn is_other(entries: &[Entry], rows: &[Row], before: &[Entry], old: &[Row]) -> bool
    ensures { result ≡ not (same_by same_told (told_commands entries.now rows.now)
        (told_commands before.now old.now)) }
{
    if entries.len() != before.len() {
        return true;
    }
    'commands: for place in 0..entries.len() {
        let row = row_at(rows, place);
        let had = row_at(old, place);
        if !same_command(&entries[place], &row, &before[place], &had) {
            return true;
        }
    }
    false
}

/// Whether both commands are the same, and their rows have the same executions.
fn same_command(entry: &Entry, row: &Option<Row>, before: &Entry, had: &Option<Row>) -> bool
    ensures { result ≡ same_told (entry.now.command, told_row row.now)
        (before.now.command, told_row had.now) }
{
    entry.command == before.command && same_row(row, had)
}

/// Whether both rows have the same executions.
fn same_row(row: &Option<Row>, had: &Option<Row>) -> bool
    ensures { result ≡ same_by (λ e f. e == f) (told_row row.now) (told_row had.now) }
{
    match (row, had) {
        (None, None) => true,
        (Some(row), Some(had)) => {
            row.evaluation == had.evaluation && same_print(&row.print, &had.print)
        }
        _ => false,
    }
}

fn same_print(print: &Option<ExecId>, had: &Option<ExecId>) -> bool
    ensures { result ≡ same_by (λ e f. e == f) (print_list print.now) (print_list had.now) }
{
    match (print, had) {
        (None, None) => true,
        (Some(print), Some(had)) => print == had,
        _ => false,
    }
}

impl Assignment {
    /// The rows of the node at the place.
    pub fn rows_at(&self, place: usize) -> &[Row]
        ensures { result.now ≡ (slice_index_or self.now.assigned place nothing_assigned).rows }
    {
        match self.assigned.get(place) {
            Some(assigned) => assigned.get().rows.as_slice(),
            None => &[],
        }
    }

    /// Whether the node at the place is marked as one that has what it had.
    pub fn has_stood(&self, place: usize) -> bool
        ensures { result ≡ marked self.now.standing place }
    {
        place < self.standing.len() && self.standing.as_slice()[place]
    }
}

/// The names of nodes rise.
fn names_law(nodes: &Nodes)
    ensures { IsSorted in_order nodes.now }
{
    nodes.iter();
}

impl<'a, C: Cancelled> Update<'a, C> {
    /// What the update tells, when this is assigned: the nodes whose rows are others than those of
    /// the version before, in the order of names, each command with its executions. A node that
    /// the version before has not counts as one with no commands. A node that is marked as standing
    /// is not looked at.
    pub fn listed(&self, alloc: Global, made: &Assignment) -> Result<Vec<ToldNode>, AllocError>
        requires { HaveStood self.now made.now.standing
            (λ p. slice_index_or made.now.assigned p nothing_assigned) }
        ensures { IfOk result (λ all. map told_node all.items
            ≡ listed self.now.tip (update_version self.now made.now.assigned)) }
    {
        names_law(self.nodes);
        let mut all = Vec::new(alloc);
        'nodes: for place in 0..self.nodes.len() {
            self.add_told(alloc, &mut all, made, place)?;
        }
        Ok(all)
    }

    /// Adds the node at the place, if it is told otherwise than before.
    fn add_told(
        &self,
        alloc: Global,
        all: &mut Vec<ToldNode>,
        made: &Assignment,
        place: usize,
    ) -> Result<(), AllocError>
        requires { HaveStood self.now made.now.standing
            (λ p. slice_index_or made.now.assigned p nothing_assigned) }
        ensures { (pair : List ℕ × Node) → slice_get self.now.nodes place ≡ Some pair
            → OnOk result (map told_node all.new.items ≡ map told_node all.old.items
            ++ filter (is_other self.now.tip) (told_at made.now.assigned place pair ∷ [])) }
    {
        if made.has_stood(place) {
            return Ok(());
        }
        let Some((name, node)) = self.nodes.at(place) else {
            return Ok(());
        };
        let rows = made.rows_at(place);
        if !self.is_told_otherwise(name, node, rows) {
            return Ok(());
        }
        let told = told_node(alloc, name, node, rows)?;
        all.push(told)?;
        Ok(())
    }

    /// Whether the node with these rows is told otherwise than before.
    fn is_told_otherwise(&self, name: &NodeName, node: &Node, rows: &[Row]) -> bool
        ensures { result ≡ is_other self.now.tip
            (name.now, told_commands node.now.entries rows.now) }
    {
        is_other(
            node.entries.get().as_slice(),
            rows,
            self.entries_before(name),
            self.rows_before(name),
        )
    }
}

/// The node with these rows.
fn told_node(
    alloc: Global,
    name: &NodeName,
    node: &Node,
    rows: &[Row],
) -> Result<ToldNode, AllocError>
    ensures { IfOk result (λ one. told_node one ≡ (
      name.now,
      told_commands node.now.entries
          rows.now,
    )) }
{
    let commands = told_commands(alloc, node.entries.get().as_slice(), rows)?;
    Ok(ToldNode {
        node: name.clone()?,
        commands,
    })
}
