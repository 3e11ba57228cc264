//! Data written as YXML, with no tree in between. For want of memory some of it may have been
//! added.
ghost use Rattle.std.specs.Prelude.{◌≡◌, ◌++◌, ◌∷◌, [], map, OnOk, string_bytes};
ghost use Rattle.xml_codec.specs.Data.{list_body};
ghost use Rattle.yxml.specs.Spelling.{yxml};
ghost use Rattle.report_markup.specs.Element.{element};
ghost use Rattle.message_values.specs.ShapeBodies.{number_body};
ghost use Rattle.reply_messages.specs.Bodies.{row_body, node_body};
ghost use Rattle.reply_messages.specs.Lent.{executions_of, row_of, rows_of, reports_of};

use crate::chunk::put_number;
use crate::reply::{AssignedNode, AssignedRow, Executions, Reports};
use pide_base::{ExecId, VersionId};
use report_markup::write_reports;
use snapshots::write_shown;
use std::alloc::AllocError;

/// Where a node of a body begins: the tag of an element `:`.
const BEGIN: &str = "\u{5}\u{6}:\u{5}";

/// Where it ends.
const END: &str = "\u{5}\u{6}\u{5}";

/// Adds a node around a number.
fn put_numbered(out: &mut String, number: u64) -> Result<(), AllocError>
    ensures { OnOk result (string_bytes out.new
        ≡ string_bytes out.old ++ yxml (list_body (number_body number ∷ []))) }
{
    out.push_str(BEGIN)?;
    put_number(out, number)?;
    out.push_str(END)
}

/// Adds a list of executions.
pub(crate) fn put_ids(out: &mut String, execs: &[ExecId]) -> Result<(), AllocError>
    ensures { OnOk result (string_bytes out.new
        ≡ string_bytes out.old ++ yxml (list_body (map number_body execs.now))) }
{
    'execs: for exec in execs {
        put_numbered(out, exec.number())?;
    }
    Ok(())
}

/// Adds a list of versions.
pub(crate) fn put_versions(out: &mut String, versions: &[VersionId]) -> Result<(), AllocError>
    ensures { OnOk result (string_bytes out.new
        ≡ string_bytes out.old ++ yxml (list_body (map number_body versions.now))) }
{
    'versions: for version in versions {
        put_numbered(out, version.number())?;
    }
    Ok(())
}

/// Adds the list of a command's executions.
fn put_executions(out: &mut String, executions: Executions) -> Result<(), AllocError>
    ensures { OnOk result (string_bytes out.new ≡ string_bytes out.old
        ++ yxml (list_body (map number_body (executions_of executions)))) }
{
    match executions {
        Executions::Unassigned => Ok(()),
        Executions::Evaluated { evaluation } => put_ids(out, &[evaluation]),
        Executions::Printed { evaluation, print } => put_ids(out, &[evaluation, print]),
    }
}

/// Adds a node around a command with its executions.
fn put_row(out: &mut String, row: &AssignedRow) -> Result<(), AllocError>
    ensures { OnOk result (string_bytes out.new
        ≡ string_bytes out.old ++ yxml (list_body (row_body (row_of row.now) ∷ []))) }
{
    out.push_str(BEGIN)?;
    put_numbered(out, row.command.number())?;
    out.push_str(BEGIN)?;
    put_executions(out, row.executions)?;
    out.push_str(END)?;
    out.push_str(END)
}

/// Adds a list of commands with their executions.
fn put_rows(out: &mut String, rows: &[AssignedRow]) -> Result<(), AllocError>
    ensures { OnOk result (string_bytes out.new
        ≡ string_bytes out.old ++ yxml (list_body (map row_body (map row_of rows.now)))) }
{
    'rows: for row in rows {
        put_row(out, row)?;
    }
    Ok(())
}

/// Adds a node around a document's node with its rows.
fn put_node(out: &mut String, node: &AssignedNode<'_>) -> Result<(), AllocError>
    ensures { OnOk result (string_bytes out.new
        ≡ string_bytes out.old ++ yxml (list_body (node_body (rows_of node.now) ∷ []))) }
{
    out.push_str(BEGIN)?;
    out.push_str(BEGIN)?;
    out.push_str(node.node.as_str())?;
    out.push_str(END)?;
    out.push_str(BEGIN)?;
    put_rows(out, node.rows)?;
    out.push_str(END)?;
    out.push_str(END)
}

/// Adds a list of nodes with their rows.
pub(crate) fn put_nodes(out: &mut String, nodes: &[AssignedNode<'_>]) -> Result<(), AllocError>
    ensures { OnOk result (string_bytes out.new
        ≡ string_bytes out.old ++ yxml (list_body (map node_body (map rows_of nodes.now)))) }
{
    'nodes: for node in nodes {
        put_node(out, node)?;
    }
    Ok(())
}

/// Adds reports, one after the other.
pub(crate) fn put_reports(out: &mut String, reports: Reports<'_>) -> Result<(), AllocError>
    ensures { OnOk result (string_bytes out.new
        ≡ string_bytes out.old ++ yxml (map element (reports_of reports.entry))) }
{
    match reports {
        Reports::Own(reports) => write_reports(out, reports),
        Reports::Shown(reports) => write_shown(out, reports),
    }
}
