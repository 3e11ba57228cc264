//! Room for an update.
ghost use Rattle.std.specs.Prelude.{◌≡◌, ◌≤◌, ◌+◌, ℕ, length, flat_map, vec_len, vec_capacity, IfSome, OnOk};
ghost use Rattle.std.specs.HashMap.{spare};
ghost use Rattle.core_tables.specs.Rows.{execution_of};
ghost use Rattle.core_tables.specs.Tasks.{standing};
ghost use Rattle.prover_core.specs.Looked.{looked};

use crate::table::Table;
use core_tables::{Execs, TaskQueue, Versions};
use exec_rules::Version;
use pide_base::ExecId;
use std::alloc::AllocError;
use update_plans::{Fresh, Known};
use version_losses::Losses;

/// Makes room for one version more, and for these executions with their tasks, beside the forks of
/// all that is held; and for noting all that has a task then as cancelled.
pub(crate) fn make_room<R: Drop>(
    versions: &mut Versions<Version>,
    losses: &mut Losses,
    execs: &mut Execs<R>,
    known: &mut Table<Known>,
    queue: &mut TaskQueue,
    cancelled: &mut Vec<ExecId>,
    held: usize,
    fresh: &[Fresh],
) -> Result<(), AllocError>
    ensures start { versions.new.start ≡ versions.old.start }
    ensures live { versions.new.live ≡ versions.old.live }
    ensures losses { losses.new.losses ≡ losses.old.losses }
    ensures rows { (e : ℕ) → execution_of execs.new.rows e ≡ execution_of execs.old.rows e }
    ensures known { (e : ℕ) → looked known.new e ≡ looked known.old e }
    ensures tasks { (e : ℕ) → standing queue.new e ≡ standing queue.old e }
    ensures count { length queue.new.tasks ≡ length queue.old.tasks }
    ensures room { queue.old.room ≤ queue.new.room }
    ensures cancelled { cancelled.new.items ≡ cancelled.old.items }
    ensures len { vec_len cancelled.new ≡ vec_len cancelled.old }
    ensures capacity { vec_capacity cancelled.old ≤ vec_capacity cancelled.new }
    ensures versions_fit { OnOk result (1 ≤ versions.new.room) }
    ensures losses_fit { OnOk result (1 ≤ losses.new.room) }
    ensures executions_fit { OnOk result (length fresh.now ≤ execs.new.room) }
    ensures known_fit { OnOk result (length fresh.now ≤ spare known.new) }
    ensures tasks_fit { OnOk result (length fresh.now + held ≤ queue.new.room) }
    ensures links_fit { OnOk result
        (length (flat_map (λ one. one.task.inputs) fresh.now) ≤ queue.new.links) }
    ensures cancelled_fit { OnOk result
        (length fresh.now + length queue.new.tasks ≤ vec_capacity cancelled.new) }
{
    make_version_room(versions, losses)?;
    make_row_room(execs, known, fresh.len())?;
    make_task_room(queue, cancelled, held, fresh)
}

/// Makes room for one version more.
fn make_version_room(
    versions: &mut Versions<Version>,
    losses: &mut Losses,
) -> Result<(), AllocError>
    ensures start { versions.new.start ≡ versions.old.start }
    ensures live { versions.new.live ≡ versions.old.live }
    ensures losses { losses.new.losses ≡ losses.old.losses }
    ensures versions_fit { OnOk result (1 ≤ versions.new.room) }
    ensures losses_fit { OnOk result (1 ≤ losses.new.room) }
{
    versions.reserve(1)?;
    losses.reserve(1)
}

/// Makes room for so many executions more.
fn make_row_room<R: Drop>(
    execs: &mut Execs<R>,
    known: &mut Table<Known>,
    count: usize,
) -> Result<(), AllocError>
    ensures rows { (e : ℕ) → execution_of execs.new.rows e ≡ execution_of execs.old.rows e }
    ensures known { (e : ℕ) → looked known.new e ≡ looked known.old e }
    ensures executions_fit { OnOk result (count ≤ execs.new.room) }
    ensures known_fit { OnOk result (count ≤ spare known.new) }
{
    execs.reserve(count)?;
    reserve(known, count)
}

/// Makes room for the tasks of these executions, beside the forks of all that is held; and for
/// noting all that has a task then as cancelled.
fn make_task_room(
    queue: &mut TaskQueue,
    cancelled: &mut Vec<ExecId>,
    held: usize,
    fresh: &[Fresh],
) -> Result<(), AllocError>
    ensures tasks { (e : ℕ) → standing queue.new e ≡ standing queue.old e }
    ensures count { length queue.new.tasks ≡ length queue.old.tasks }
    ensures room { queue.old.room ≤ queue.new.room }
    ensures cancelled { cancelled.new.items ≡ cancelled.old.items }
    ensures len { vec_len cancelled.new ≡ vec_len cancelled.old }
    ensures capacity { vec_capacity cancelled.old ≤ vec_capacity cancelled.new }
    ensures tasks_fit { OnOk result (length fresh.now + held ≤ queue.new.room) }
    ensures links_fit { OnOk result
        (length (flat_map (λ one. one.task.inputs) fresh.now) ≤ queue.new.links) }
    ensures cancelled_fit { OnOk result
        (length fresh.now + length queue.new.tasks ≤ vec_capacity cancelled.new) }
{
    let count = fresh.len();
    let Some(tasks) = count.checked_add(held) else {
        return Err(AllocError);
    };
    let Some(links) = links_of(fresh) else {
        return Err(AllocError);
    };
    let Some(cancellable) = count.checked_add(queue.count()) else {
        return Err(AllocError);
    };
    cancelled.reserve(cancellable)?;
    queue.reserve(tasks, links)
}

/// How many inputs their tasks have in all, if a number tells it.
fn links_of(fresh: &[Fresh]) -> Option<usize>
    ensures { IfSome result
        (λ links. links ≡ length (flat_map (λ one. one.task.inputs) fresh.now)) }
{
    let mut links = 0usize;
    'executions: for one in fresh {
        links = links.checked_add(one.task.inputs.len())?;
    }
    Some(links)
}

/// Makes room for so many more.
fn reserve<T: Drop>(table: &mut Table<T>, count: usize) -> Result<(), AllocError>
    ensures things { (e : ℕ) → looked table.new e ≡ looked table.old e }
    ensures ok { OnOk result (count ≤ spare table.new) }
{
    table.reserve(count)
}
