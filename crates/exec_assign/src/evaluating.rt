//! The evaluations of a node.
ghost use Rattle.std.specs.Prelude.{◌≡◌, ◌+◌, ◌-◌, ◌<◌, ◌≤◌, ◌++◌, length, map, take, Err, IfOk, OnOk};
ghost use Rattle.std.specs.List.{range_with_len};
ghost use Rattle.pide_base.specs.Ids.{id_end};
ghost use Rattle.exec_rules.specs.Rows.{evaluations};
ghost use Rattle.exec_assign.specs.declared.fault.AssignFault.TheVariants.{Limit};

use crate::fault::AssignFault;
use exec_rules::Row;
use pide_base::ExecId;
use sqlite_items::Items;
use std::alloc::{AllocError, Global};

/// The execution of the next number, if that is an id.
pub(crate) fn numbered(next: u64) -> Result<ExecId, AssignFault>
    requires { 1 ≤ next }
    ensures ok { IfOk result (λ id. id ≡ next) }
    ensures within { IfOk result (λ _. next < id_end) }
    ensures limit { result ≡ Err Limit → id_end ≤ next }
{
    match ExecId::new(next) {
        Some(id) => Ok(id),
        None => Err(AssignFault::Limit),
    }
}

/// The evaluations of so many commands: the first ones, that keep theirs, have those of the old
/// rows, and the others the next numbers.
pub(crate) fn evaluations(
    alloc: Global,
    old: &[Row],
    kept: usize,
    count: usize,
    next: u64,
) -> Result<Items<ExecId>, AssignFault>
    requires kept { kept ≤ length old.now }
    requires count { kept ≤ count }
    requires first { 1 ≤ next }
    requires next { next ≤ id_end }
    ensures ok { IfOk result (λ all. all ≡ evaluations old.now kept count next) }
    ensures long { IfOk result (λ all. length all ≡ count) }
    ensures within { IfOk result (λ _. next + (count - kept) ≤ id_end) }
    ensures limit { result ≡ Err Limit → id_end < next + (count - kept) }
{
    let mut all = kept_evaluations(alloc, &old[..kept])?;
    add_numbered(&mut all, next, count - kept)?;
    Ok(all)
}

fn kept_evaluations(alloc: Global, rows: &[Row]) -> Result<Items<ExecId>, AllocError>
    ensures { IfOk result (λ all. all ≡ map (λ row. row.evaluation) rows.now) }
{
    let mut all = Items::new(alloc);
    'rows: for row in rows {
        all.push(row.evaluation)?;
    }
    Ok(all)
}

/// Adds the executions of so many next numbers.
fn add_numbered(all: &mut Items<ExecId>, next: u64, count: usize) -> Result<(), AssignFault>
    requires first { 1 ≤ next }
    requires next { next ≤ id_end }
    ensures ok { OnOk result (all.new ≡ all.old ++ range_with_len next count) }
    ensures within { OnOk result (next + count ≤ id_end) }
    ensures limit { result ≡ Err Limit → id_end < next + count }
{
    let mut number = next;
    'numbers: for _ in 0..count {
        let id = numbered(number)?;
        all.push(id)?;
        number += 1;
    }
    Ok(())
}
