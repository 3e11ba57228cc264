//! Executions with an unfinished part.
ghost use Rattle.std.specs.Prelude.{◌≡◌, ℕ, filter, flat_map, IfOk};
ghost use Rattle.std.specs.List.Sorted.{IsStrictlyIncreasing};
ghost use Rattle.text_words.specs.Members.{has};
ghost use Rattle.core_tables.specs.Rows.{execution_of};
ghost use Rattle.core_rules.specs.exec_rules_below.Listed.{executions};
ghost use Rattle.core_jobs.specs.Parts.{is_unfinished};

use crate::gathering::{add_rows, rising};
use core_rules::exec_rules_below::Row;
use core_tables::{Execs, Progress};
use pide_base::ExecId;
use std::alloc::{AllocError, Global};

/// The executions of these rows with an unfinished part, rising.
pub(crate) fn pending_in<R>(
    alloc: Global,
    execs: &Execs<R>,
    rows: &[Row],
) -> Result<Vec<ExecId>, AllocError>
    ensures rises { IfOk result (λ found. IsStrictlyIncreasing found.items) }
    ensures same { IfOk result (λ found. (e : ℕ) → has found.items e
        ≡ has (filter (λ n. is_unfinished (execution_of execs.now.rows n))
        (flat_map executions rows.now)) e) }
{
    let mut all = Vec::new(alloc);
    add_rows(&mut all, rows)?;
    open_among(alloc, execs, &all)
}

/// Those of these executions that have an unfinished part, rising.
pub fn open_among<R>(
    alloc: Global,
    execs: &Execs<R>,
    all: &[ExecId],
) -> Result<Vec<ExecId>, AllocError>
    ensures rises { IfOk result (λ found. IsStrictlyIncreasing found.items) }
    ensures same { IfOk result (λ found. (e : ℕ) → has found.items e
        ≡ has (filter (λ n. is_unfinished (execution_of execs.now.rows n)) all.now) e) }
{
    Ok(rising(open_of(alloc, execs, all)?))
}

/// Those of these executions that have an unfinished part.
fn open_of<R>(alloc: Global, execs: &Execs<R>, all: &[ExecId]) -> Result<Vec<ExecId>, AllocError>
    ensures { IfOk result (λ found. found.items
        ≡ filter (λ e. is_unfinished (execution_of execs.now.rows e)) all.now) }
{
    let mut found = Vec::new(alloc);
    for exec in all {
        if is_unfinished(execs, *exec) {
            found.push(*exec)?;
        }
    }
    Ok(found)
}

fn is_unfinished<R>(execs: &Execs<R>, exec: ExecId) -> bool
    ensures { result ≡ is_unfinished (execution_of execs.now.rows exec) }
{
    match execs.get(exec) {
        Some(execution) => matches!(
            execution.progress,
            Progress::Evaluating | Progress::Forking { .. } | Progress::Printing
        ),
        None => false,
    }
}
