//! The executions that rows have, gathered.
ghost use Rattle.std.specs.Prelude.{◌≡◌, ◌++◌, ℕ, flat_map, OnOk};
ghost use Rattle.std.specs.List.Sorted.{IsStrictlyIncreasing};
ghost use Rattle.text_words.specs.Members.{has};
ghost use Rattle.core_rules.specs.exec_rules_below.Listed.{executions};

use core_rules::exec_rules_below::Row;
use pide_base::ExecId;
use std::alloc::AllocError;

/// Adds all that stands in these rows.
pub(crate) fn add_rows(execs: &mut Vec<ExecId>, rows: &[Row]) -> Result<(), AllocError>
    ensures { OnOk result (execs.new.items ≡ execs.old.items ++ flat_map executions rows.now) }
{
    for row in rows {
        add_row(execs, row)?;
    }
    Ok(())
}

/// Adds the executions of a row.
fn add_row(execs: &mut Vec<ExecId>, row: &Row) -> Result<(), AllocError>
    ensures { OnOk result (execs.new.items ≡ execs.old.items ++ executions row.now) }
{
    execs.push(row.evaluation)?;
    if let Some(print) = row.print {
        execs.push(print)?;
    }
    Ok(())
}

/// The same executions, rising, each once.
pub(crate) fn rising(execs: Vec<ExecId>) -> Vec<ExecId>
    ensures rises { IsStrictlyIncreasing result.items }
    ensures same { (e : ℕ) → has result.items e ≡ has execs.items e }
{
    let mut execs = execs;
    execs.sort_unstable();
    execs.dedup();
    execs
}
