//! Nodes that an update leaves alone.
ghost use Rattle.std.specs.Prelude.{◌≡◌, ◌&&◌, ℕ, List, true, slice_get, Some, IfOk};
ghost use Rattle.std.specs.List.{list_all};
ghost use Rattle.doc_nodes.specs.Looks.{marked};
ghost use Rattle.doc_nodes.specs.declared.node.Node.{Node};
ghost use Rattle.exec_rules.specs.Assigning.{rows_in};
ghost use Rattle.exec_rules.specs.Kept.{BlobList};
ghost use Rattle.exec_assign.specs.Untouched.{AreUntouched};
ghost use Rattle.update_plans.specs.Cancelled.{cancelled_in, IsQuiet};
ghost use Rattle.update_plans.specs.Alive.{is_alive, lives, HaveCommands};

use crate::beside::{has_mark, rows_in};
use crate::cancelled::is_cancelled;
use core_tables::Execs;
use doc_nodes::Nodes;
use exec_rules::{Row, Version};
use pide_base::ExecId;
use std::alloc::{AllocError, Global};

/// Marks, in the order of names, of the new nodes that are untouched: those that are marked as ones
/// that have the commands that they had, and of whose executions none is cancelled in the table.
/// The rows of each node that is marked are looked at.
pub fn untouched<R>(
    alloc: Global,
    execs: &Execs<R>,
    before: &Version,
    nodes: &Nodes,
    marks: &[bool],
    quiet: bool,
) -> Result<Vec<bool>, AllocError>
    requires commands { HaveCommands before.now nodes.now marks.now }
    requires quiet { quiet ≡ true → IsQuiet execs.now.rows before.now }
    ensures marks { IfOk result (λ all. (p : ℕ) (pair : List ℕ × Node)
        → slice_get nodes.now p ≡ Some pair → marked all.items p
        ≡ (marked marks.now p && list_all (is_alive execs.now.rows) (rows_in before.now pair.0))) }
    ensures untouched { IfOk result (λ all. (blobs : BlobList) → AreUntouched (record {
      tip = before.now;
      nodes = nodes.now;
      blobs = blobs;
      cancelled = cancelled_in execs.now.rows;
    }) all.items) }
{
    let mut all = Vec::new(alloc);
    'nodes: for place in 0..nodes.len() {
        all.push(is_untouched(execs, before, nodes, marks, quiet, place))?;
    }
    Ok(all)
}

/// Whether the node at the place is marked, and none of its executions is cancelled.
fn is_untouched<R>(
    execs: &Execs<R>,
    before: &Version,
    nodes: &Nodes,
    marks: &[bool],
    quiet: bool,
    place: usize,
) -> bool
    requires { quiet ≡ true → IsQuiet execs.now.rows before.now }
    ensures { (pair : List ℕ × Node) → slice_get nodes.now place ≡ Some pair
        → result ≡ (marked marks.now place
        && list_all (is_alive execs.now.rows) (rows_in before.now pair.0)) }
{
    if !has_mark(marks, place) {
        return false;
    }
    if quiet {
        return true;
    }
    match nodes.at(place) {
        Some((name, _)) => are_alive(execs, rows_in(before, name)),
        None => false,
    }
}

/// Whether none of the rows' executions is cancelled.
fn are_alive<R>(execs: &Execs<R>, rows: &[Row]) -> bool
    ensures { result ≡ list_all (is_alive execs.now.rows) rows.now }
{
    'rows: for row in rows {
        if !is_alive(execs, row) {
            return false;
        }
    }
    true
}

fn is_alive<R>(execs: &Execs<R>, row: &Row) -> bool
    ensures { result ≡ is_alive execs.now.rows row.now }
{
    !is_cancelled(execs, row.evaluation) && lives(execs, &row.print)
}

fn lives<R>(execs: &Execs<R>, print: &Option<ExecId>) -> bool
    ensures { result ≡ lives execs.now.rows print.now }
{
    match print {
        Some(print) => !is_cancelled(execs, *print),
        None => true,
    }
}
