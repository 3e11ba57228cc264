//! The rows of the table, by number.
ghost use Rattle.std.specs.Prelude.{◌≡◌, ◌↔◌, ◌==◌, ℕ, ◌+◌, ◌<◌, ◌≤◌, if◌then◌else◌, Some, None, IsOk, IsSome, IfErr, OnOk, OnErr};
ghost use Rattle.std.specs.Option.{option_and_then};
ghost use Rattle.std.specs.List.{list_any};
ghost use Rattle.std.specs.HashMap.{spare};
ghost use Rattle.core_tables.specs.Rows.{execution_of, Updates};
ghost use Rattle.core_tables.specs.Finish.{finished_in, cancelling, after_cancelling};

use crate::execs::Cancelling;
use crate::execution::{Done, Execution};
use pide_base::ExecId;
use std::alloc::{AllocError, Global};
use std::collections::HashMap;
use std::hash::{BuildHasherDefault, FoldHasher};

/// Executions by their numbers.
pub(crate) type Rows<R> = HashMap<u64, Execution<R>, BuildHasherDefault<FoldHasher>, Global>;

/// Makes room for so many more.
pub(crate) fn reserve<R: Drop>(rows: &mut Rows<R>, count: usize) -> Result<(), AllocError>
    ensures rows { (e : ℕ) → execution_of rows.new.entries e ≡ execution_of rows.old.entries e }
    ensures ok { OnOk result (count ≤ spare rows.new) }
    ensures room { spare rows.old ≤ spare rows.new }
{
    rows.reserve(count)
}

/// Puts an execution in that has no row, in room that was made.
pub(crate) fn put<R: Drop>(rows: &mut Rows<R>, exec: u64, execution: Execution<R>)
    requires room { 0 < spare rows.old }
    requires fresh { execution_of rows.old.entries exec ≡ None }
    ensures row { Updates rows.old.entries rows.new.entries exec (Some execution) }
    ensures room { spare rows.old ≤ spare rows.new + 1 }
{
    match rows.insert(exec, execution) {
        Ok(before) => drop(before),
        Err(_) => unreachable!(),
    }
}

/// Finishes a part of an execution, or hands back what it brings.
pub(crate) fn finish_at<R: Drop>(
    rows: &mut Rows<R>,
    exec: u64,
    done: Done<R>,
) -> Result<(), Done<R>>
    ensures finished { IsOk result
        ↔ IsSome (option_and_then (finished_in done) (execution_of rows.old.entries exec)) }
    ensures ok { OnOk result (Updates rows.old.entries rows.new.entries exec
        (option_and_then (finished_in done) (execution_of rows.old.entries exec))) }
    ensures room { spare rows.new ≡ spare rows.old }
    ensures back { IfErr result (λ back. back ≡ done) }
    ensures err { OnErr result (Updates rows.old.entries rows.new.entries exec
        (execution_of rows.old.entries exec)) }
{
    let Some(execution) = rows.get_mut(&exec) else {
        return Err(done);
    };
    execution.finish(done)
}

/// Cancels an execution that has an unfinished part.
pub(crate) fn cancel_at<R: Drop>(rows: &mut Rows<R>, exec: u64) -> Cancelling
    ensures answer { result ≡ cancelling (execution_of rows.old.entries exec) }
    ensures row { Updates rows.old.entries rows.new.entries exec
        (after_cancelling (execution_of rows.old.entries exec)) }
    ensures room { spare rows.new ≡ spare rows.old }
{
    let Some(execution) = rows.get_mut(&exec) else {
        return Cancelling::Unknown;
    };
    execution.cancel()
}

/// Frees the executions with these ids, with their results.
pub(crate) fn forget_all<R: Drop>(rows: &mut Rows<R>, gone: &[ExecId])
    ensures left { (e : ℕ) → execution_of rows.new.entries e ≡ (if list_any (λ id. id == e) gone.now
        then None else execution_of rows.old.entries e) }
    ensures room { spare rows.old ≤ spare rows.new }
{
    'executions: for exec in gone {
        forget_at(rows, exec.number());
    }
}

fn forget_at<R: Drop>(rows: &mut Rows<R>, exec: u64)
    ensures row { Updates rows.old.entries rows.new.entries exec None }
    ensures room { spare rows.old ≤ spare rows.new }
{
    drop(rows.remove(&exec));
}
