//! What an update does to the tables.
ghost use Rattle.std.specs.Prelude.{Bool, ◌≡◌, ◌==◌, ◌+◌, ◌<◌, ◌≤◌, ℕ, None, Some, length, map, is_some, if◌then◌else◌};
ghost use Rattle.std.specs.Option.{option_map, option_map_or};
ghost use Rattle.std.specs.List.{AllByRecursion};
ghost use Rattle.std.specs.HashMap.{hash_map_len, spare};
ghost use Rattle.text_words.specs.Members.{has};
ghost use Rattle.core_tables.specs.Rows.{execution_of};
ghost use Rattle.core_tables.specs.Finish.{after_cancelling};
ghost use Rattle.core_tables.specs.Tasks.{standing};
ghost use Rattle.core_tables.specs.Ready.{with_standing};
ghost use Rattle.prover_core.specs.Looked.{looked};
ghost use Rattle.prover_core.specs.Plans.{ranked};

use crate::cancelling::ask_to_stop;
use crate::table::Table;
use core_tables::{Cancelling, Execs, Priority, TaskQueue};
use pide_base::{ExecId, PartKind};
use update_plans::{Known, Sight};

/// Executions that the tip has no more are cancelled where a part of them is unfinished, and have
/// no task.
pub(crate) fn drop_all<R: Drop>(
    execs: &mut Execs<R>,
    known: &Table<Known>,
    queue: &mut TaskQueue,
    dropped: &[ExecId],
)
    ensures rows { (e : ℕ) → execution_of execs.new.rows e ≡ (if has dropped.now e
        then after_cancelling (execution_of execs.old.rows e) else execution_of execs.old.rows e) }
    ensures tasks { (e : ℕ) → standing queue.new e
        ≡ (if has dropped.now e then None else standing queue.old e) }
    ensures executions { execs.new.room ≡ execs.old.room }
    ensures count { length queue.new.tasks ≤ length queue.old.tasks }
    ensures room { queue.old.room ≤ queue.new.room }
    ensures links { queue.old.links ≤ queue.new.links }
{
    'executions: for exec in dropped {
        drop_one(execs, known, queue, *exec);
    }
}

fn drop_one<R: Drop>(
    execs: &mut Execs<R>,
    known: &Table<Known>,
    queue: &mut TaskQueue,
    exec: ExecId,
)
    ensures rows { (e : ℕ) → execution_of execs.new.rows e ≡ (if exec == e
        then after_cancelling (execution_of execs.old.rows exec)
        else execution_of execs.old.rows e) }
    ensures tasks { (e : ℕ) → standing queue.new e
        ≡ with_standing (standing queue.old) exec None e }
    ensures executions { execs.new.room ≡ execs.old.room }
    ensures count { length queue.new.tasks ≤ length queue.old.tasks }
    ensures room { queue.old.room ≤ queue.new.room }
    ensures links { queue.old.links ≤ queue.new.links }
{
    if let Cancelling::Cancelled = execs.cancel(exec) {
        ask_to_stop(known, exec);
    }
    queue.cancel_group(exec);
}

/// Evaluations have their priority by whether their commands are visible.
pub(crate) fn see_all(queue: &mut TaskQueue, sights: &[Sight])
    ensures tasks { (sees : ℕ → Bool) → AllByRecursion (λ s. sees s.exec ≡ s.visible) sights.now
        → (e : ℕ) → standing queue.new e ≡ (if has (map (λ s. s.exec) sights.now) e
        then option_map (ranked (sees e)) (standing queue.old e) else standing queue.old e) }
    ensures count { length queue.new.tasks ≡ length queue.old.tasks }
    ensures room { queue.old.room ≤ queue.new.room }
{
    'evaluations: for sight in sights {
        see_one(queue, sight);
    }
}

fn see_one(queue: &mut TaskQueue, sight: &Sight)
    ensures tasks { (e : ℕ) → standing queue.new e
        ≡ with_standing (standing queue.old) sight.now.exec
        (option_map (ranked sight.now.visible) (standing queue.old sight.now.exec)) e }
    ensures count { length queue.new.tasks ≡ length queue.old.tasks }
    ensures room { queue.old.room ≤ queue.new.room }
{
    let evaluates = match queue.get(sight.exec) {
        Some(standing) => matches!(standing.kind, PartKind::Eval),
        None => false,
    };
    if evaluates {
        let priority = if sight.visible {
            Priority::VisibleEval
        } else {
            Priority::Eval
        };
        queue.set_priority(sight.exec, priority);
    }
}
