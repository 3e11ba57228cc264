//! The finished parts of a node's commands.
ghost use Rattle.std.specs.Prelude.{◌≡◌, ◌∷◌, [], ◌++◌, map, flat_map, Some, IfOk, OnOk};
ghost use Rattle.core_tables.specs.Rows.{execution_of};
ghost use Rattle.core_rules.specs.exec_rules_below.Listed.{executions};
ghost use Rattle.core_jobs.specs.Parts.{told_part, parts_by, parts_known, rows_known};

use crate::done::Done;
use crate::results::PartResult;
use core_rules::exec_rules_below::Row;
use core_tables::{Execs, Progress};
use doc_nodes::Entry;
use pide_base::{ExecId, Range};
use report_markup::Report;
use std::alloc::{AllocError, Global};

/// The finished parts of a node's first commands, which have these rows.
pub(crate) fn finished_parts<'a, S>(
    alloc: Global,
    execs: &'a Execs<Done<S>>,
    entries: &[Entry],
    rows: &[Row],
) -> Result<Vec<PartResult<'a>>, AllocError>
    ensures { IfOk result (λ parts. map told_part parts.items
        ≡ rows_known (λ e. execution_of execs.now.rows e) entries.now rows.now) }
{
    let mut parts = Vec::new(alloc);
    let count = entries.len().min(rows.len());
    let mut place = 0;
    'commands: while place < count {
        add_command(&mut parts, execs, entries[place].range, &rows[place])?;
        place += 1;
    }
    Ok(parts)
}

/// Adds the finished parts of a command.
fn add_command<'a, S>(
    parts: &mut Vec<PartResult<'a>>,
    execs: &'a Execs<Done<S>>,
    span: Range,
    row: &Row,
) -> Result<(), AllocError>
    ensures { OnOk result (map told_part parts.new.items ≡ map told_part parts.old.items
        ++ flat_map (λ e. parts_known span e (execution_of execs.now.rows e))
        (executions row.now)) }
{
    add_execution(parts, execs, span, row.evaluation)?;
    match row.print {
        Some(print) => add_execution(parts, execs, span, print),
        None => Ok(()),
    }
}

/// Adds the finished parts of an execution.
fn add_execution<'a, S>(
    parts: &mut Vec<PartResult<'a>>,
    execs: &'a Execs<Done<S>>,
    span: Range,
    exec: ExecId,
) -> Result<(), AllocError>
    ensures { OnOk result (map told_part parts.new.items ≡ map told_part parts.old.items
        ++ parts_known span exec (execution_of execs.now.rows exec)) }
{
    match execs.get(exec) {
        Some(execution) => add_finished(parts, &execution.progress, span, exec),
        None => Ok(()),
    }
}

/// Adds those parts of an execution that are finished when it is so far.
fn add_finished<'a, S>(
    parts: &mut Vec<PartResult<'a>>,
    progress: &'a Progress<Done<S>>,
    span: Range,
    exec: ExecId,
) -> Result<(), AllocError>
    ensures { OnOk result (map told_part parts.new.items ≡ map told_part parts.old.items
        ++ parts_by span exec progress.now) }
{
    match progress {
        Progress::Evaluating | Progress::Printing => Ok(()),
        Progress::Forking { eval } | Progress::Evaluated { eval } => {
            add_part(parts, eval.reports.get().as_slice(), span, exec)
        }
        Progress::Forked { eval, fork } => {
            add_part(parts, eval.reports.get().as_slice(), span, exec)?;
            add_part(parts, fork.reports.get().as_slice(), span, exec)
        }
        Progress::Printed { print } => {
            add_part(parts, print.reports.get().as_slice(), span, exec)
        }
    }
}

/// Adds a part with these reports.
fn add_part<'a>(
    parts: &mut Vec<PartResult<'a>>,
    reports: &'a [Report],
    span: Range,
    exec: ExecId,
) -> Result<(), AllocError>
    ensures { OnOk result (map told_part parts.new.items ≡ map told_part parts.old.items
        ++ record { exec = exec; span = span; reports = Some reports.now } ∷ []) }
{
    let part = PartResult {
        exec,
        span,
        reports,
    };
    match parts.push(part) {
        Ok(()) => Ok(()),
        Err(_) => Err(AllocError),
    }
}
