//! The reply to an update.
ghost use Rattle.std.specs.Prelude.{◌≡◌, map, IfOk};
ghost use Rattle.reply_messages.specs.declared.told.Told.TheVariants as tells;
ghost use Rattle.reply_messages.specs.Lent.{executions_of, row_of, rows_of};
ghost use Rattle.exec_assign.specs.Told.{told_row, told_command, told_node};
ghost use Rattle.session_replies.specs.Spelling.{reply_spelling};
ghost use Rattle.session_replies.specs.Assigned.{command_told, node_told, nodes_told, node_of};

use exec_assign::{ToldCommand, ToldNode};
use exec_rules::Row;
use pide_base::{NodeName, VersionId};
use reply_messages::{AssignedNode, AssignedRow, Executions};
use sqlite_items::Items;
use std::alloc::{AllocError, Global};

/// A node with the rows that are told of it.
#[derive(Drop)]
pub(crate) struct NodeLent<'a> {
    node: &'a NodeName,
    rows: Items<AssignedRow>,
}

/// The reply to an update that made the version: the nodes whose rows are others than before, with
/// their commands in the order of places. It is linear in these.
pub fn assign(alloc: Global, version: VersionId, nodes: &[ToldNode]) -> Result<Vec<u8>, AllocError>
    ensures { IfOk result (λ bytes. bytes.items
        ≡ reply_spelling (tells.Assign version (nodes_told (map told_node nodes.now)))) }
{
    let rows = rows_of_nodes(alloc, nodes)?;
    let nodes = lent(alloc, &rows)?;
    reply_messages::assign(alloc, version, &nodes)
}

/// The nodes with their rows.
fn rows_of_nodes<'a>(alloc: Global, nodes: &'a [ToldNode]) -> Result<Vec<NodeLent<'a>>, AllocError>
    ensures { IfOk result (λ all. map node_of all.items
        ≡ nodes_told (map told_node nodes.now)) }
{
    let mut all = Vec::new(alloc);
    'nodes: for node in nodes {
        let rows = rows_of_node(alloc, node.commands.as_slice())?;
        all.push(NodeLent {
            node: &node.node,
            rows,
        })?;
    }
    Ok(all)
}

/// The rows of these commands.
fn rows_of_node(alloc: Global, commands: &[ToldCommand]) -> Result<Items<AssignedRow>, AllocError>
    ensures { IfOk result (λ rows. map row_of rows
        ≡ map command_told (map told_command commands.now)) }
{
    let mut rows = Items::new(alloc);
    'commands: for told in commands {
        rows.push(AssignedRow {
            command: told.command,
            executions: executions(&told.row),
        })?;
    }
    Ok(rows)
}

/// The executions of a row, where there is one.
fn executions(row: &Option<Row>) -> Executions
    ensures { executions_of result ≡ told_row row.now }
{
    let Some(row) = row else {
        return Executions::Unassigned;
    };
    let evaluation = row.evaluation;
    match row.print {
        None => Executions::Evaluated { evaluation },
        Some(print) => Executions::Printed { evaluation, print },
    }
}

/// The nodes as a reply lends them.
fn lent<'a>(alloc: Global, nodes: &'a [NodeLent<'a>]) -> Result<Vec<AssignedNode<'a>>, AllocError>
    ensures { IfOk result (λ all. map rows_of all.items ≡ map node_of nodes.now) }
{
    let mut all = Vec::new(alloc);
    'nodes: for lent in nodes {
        all.push(AssignedNode {
            node: lent.node,
            rows: lent.rows.as_slice(),
        })?;
    }
    Ok(all)
}
