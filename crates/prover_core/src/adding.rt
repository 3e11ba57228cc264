//! New executions.
ghost use Rattle.std.specs.Prelude.{◌≡◌, ◌==◌, ◌+◌, ◌<◌, ◌≤◌, ℕ, None, Some, length, map, flat_map, reverse, false, if◌then◌else◌};
ghost use Rattle.std.specs.Option.{option_map, option_map_or};
ghost use Rattle.std.specs.HashMap.{hash_map_len, spare};
ghost use Rattle.core_tables.specs.Rows.{execution_of};
ghost use Rattle.text_words.specs.Members.{has};
ghost use Rattle.core_tables.specs.Tasks.{standing};
ghost use Rattle.core_tables.specs.Changes.{waiting, nobody_waits};
ghost use Rattle.core_tables.specs.Ready.{with_standing};
ghost use Rattle.prover_core.specs.Looked.{looked};
ghost use Rattle.prover_core.specs.Plans.{begun_as};
ghost use Rattle.prover_core.specs.Fresh.{with_fresh, AreNew};

use crate::following::same;
use crate::table::Table;
use core_tables::{Execs, Execution, TaskQueue};
use pide_base::{Part, PartKind};
use update_plans::{Fresh, Known};

/// New executions are put into the tables, and their tasks into the queue. The first stands last.
pub(crate) fn add_all<R: Drop>(
    execs: &mut Execs<R>,
    known: &mut Table<Known>,
    queue: &mut TaskQueue,
    mut fresh: Vec<Fresh>,
)
    requires new { AreNew (reverse fresh.items) (λ e. execution_of execs.old.rows e)
        (λ e. looked known.old e) (λ e. standing queue.old e) }
    requires executions { length fresh.items ≤ execs.old.room }
    requires spare { length fresh.items ≤ spare known.old }
    requires room { length fresh.items ≤ queue.old.room }
    requires links { length (flat_map (λ one. one.task.inputs) (reverse fresh.items))
        ≤ queue.old.links }
    ensures rows { (e : ℕ) → execution_of execs.new.rows e
        ≡ with_fresh (λ one. begun_as one.task.part.kind) (reverse fresh.items)
        (λ n. execution_of execs.old.rows n) e }
    ensures homes { (e : ℕ) → looked known.new e
        ≡ with_fresh (λ one. one.known) (reverse fresh.items) (λ n. looked known.old n) e }
    ensures tasks { (e : ℕ) → standing queue.new e
        ≡ with_fresh (λ one. waiting one.task) (reverse fresh.items)
        (λ n. standing queue.old n) e }
    ensures count { length queue.new.tasks ≤ length queue.old.tasks + length fresh.items }
    ensures room { queue.old.room ≤ queue.new.room + length fresh.items }
{
    'news: while let Some(one) = fresh.pop() {
        add_one(execs, known, queue, one);
    }
}

/// A new execution is put into the tables, and its task into the queue.
fn add_one<R: Drop>(
    execs: &mut Execs<R>,
    known: &mut Table<Known>,
    queue: &mut TaskQueue,
    fresh: Fresh,
)
    requires row { execution_of execs.old.rows fresh.task.part.exec ≡ None }
    requires home { looked known.old fresh.task.part.exec ≡ None }
    requires task { standing queue.old fresh.task.part.exec ≡ None }
    requires first { nobody_waits queue.old fresh.task.part.exec }
    requires executions { 0 < execs.old.room }
    requires homes { 0 < spare known.old }
    requires room { 0 < queue.old.room }
    requires links { length fresh.task.inputs ≤ queue.old.links }
    ensures rows { (e : ℕ) → execution_of execs.new.rows e ≡ (if fresh.task.part.exec == e
        then Some (begun_as fresh.task.part.kind) else execution_of execs.old.rows e) }
    ensures homes { (e : ℕ) → looked known.new e ≡ (if fresh.task.part.exec == e
        then Some fresh.known else looked known.old e) }
    ensures tasks { (e : ℕ) → standing queue.new e
        ≡ with_standing (standing queue.old) fresh.task.part.exec (Some (waiting fresh.task)) e }
    ensures executions { execs.old.room ≤ execs.new.room + 1 }
    ensures spare { spare known.old ≤ spare known.new + 1 }
    ensures count { length queue.new.tasks ≡ length queue.old.tasks + 1 }
    ensures room { queue.old.room ≤ queue.new.room + 1 }
    ensures links { queue.old.links ≤ queue.new.links + length fresh.task.inputs }
{
    let Fresh { known: one, task } = fresh;
    let Part { exec, kind } = same(&task.part);
    let execution = match kind {
        PartKind::Print => Execution::print(),
        PartKind::Eval | PartKind::Fork => Execution::evaluation(),
    };
    execs.insert(exec, execution);
    if known.insert(exec.number(), one).is_err() {
        unreachable!()
    }
    queue.enqueue(task);
}
