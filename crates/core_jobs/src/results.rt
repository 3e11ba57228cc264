//! What came of a node.
ghost use Rattle.std.specs.Prelude.{◌≡◌, ℕ, filter, flat_map, map, IfOk};
ghost use Rattle.std.specs.List.Sorted.{IsStrictlyIncreasing};
ghost use Rattle.text_words.specs.Members.{has};
ghost use Rattle.core_tables.specs.Rows.{execution_of};
ghost use Rattle.core_rules.specs.exec_rules_below.Assigning.{entries_at};
ghost use Rattle.core_rules.specs.exec_rules_below.Listed.{executions};
ghost use Rattle.core_jobs.specs.Parts.{told_part, rows_at, rows_known, is_unfinished};

use crate::done::Done;
use crate::opened::pending_in;
use crate::shown::finished_parts;
use core_rules::exec_rules_below::{Row, Version};
use core_tables::Execs;
use doc_nodes::{Entry, Nodes};
use pide_base::{ExecId, Range};
use report_markup::Report;
use std::alloc::{AllocError, Global};

/// A finished part of a command, with its reports.
#[derive(Clone, Copy)]
pub struct PartResult<'a> {
    pub exec: ExecId,
    /// Where the command's span stands in the version's text, in scalars.
    pub span: Range,
    /// Their ranges count scalars of the command's source.
    pub reports: &'a [Report],
}

/// What came of a node so far.
#[derive(Drop)]
pub struct NodeResults<'a> {
    /// The finished parts, in the order of commands.
    pub parts: Vec<PartResult<'a>>,
    /// The executions with an unfinished part, rising.
    pub pending: Vec<ExecId>,
}

/// What came so far of the node at this place of a version, when the table has how far its
/// executions are.
pub fn results_at<'a, S>(
    alloc: Global,
    execs: &'a Execs<Done<S>>,
    version: &Version,
    place: usize,
) -> Result<NodeResults<'a>, AllocError>
    ensures parts { IfOk result (λ found. map told_part found.parts.items
        ≡ rows_known (λ e. execution_of execs.now.rows e)
        (entries_at version.now.nodes place) (rows_at version.now place)) }
    ensures rises { IfOk result (λ found. IsStrictlyIncreasing found.pending.items) }
    ensures pending { IfOk result (λ found. (e : ℕ) → has found.pending.items e
        ≡ has (filter (λ n. is_unfinished (execution_of execs.now.rows n))
        (flat_map executions (rows_at version.now place))) e) }
{
    let entries = entries_at(&version.nodes, place);
    let rows = rows_at(version, place);
    let parts = finished_parts(alloc, execs, entries, rows)?;
    let pending = pending_in(alloc, execs, rows)?;
    Ok(NodeResults { parts, pending })
}

/// The commands of the node at the place.
fn entries_at(nodes: &Nodes, place: usize) -> &[Entry]
    ensures { result.now ≡ entries_at nodes.now place }
{
    match nodes.at(place) {
        Some((_, node)) => node.entries.get().as_slice(),
        None => &[],
    }
}

/// The rows of the node at the place.
fn rows_at(version: &Version, place: usize) -> &[Row]
    ensures { result.now ≡ rows_at version.now place }
{
    match version.assigned.get(place) {
        Some(node) => node.get().rows.as_slice(),
        None => &[],
    }
}
