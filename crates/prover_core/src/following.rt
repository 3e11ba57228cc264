//! What comes behind a part that is finished.
ghost use Rattle.std.specs.Prelude.{◌≡◌, ◌≢◌, ◌+◌, ◌<◌, ◌≤◌, ℕ, false, length, is_some};
ghost use Rattle.std.specs.Option.{option_map, option_map_or};
ghost use Rattle.pide_base.specs.declared.part.PartKind.TheVariants as kinds;
ghost use Rattle.text_words.specs.Members.{has};
ghost use Rattle.core_tables.specs.Tasks.{standing};
ghost use Rattle.core_tables.specs.Changes.{without, IsHeld};
ghost use Rattle.core_rules.specs.Parts.{same_kind};
ghost use Rattle.prover_core.specs.Brought.{brought, forks_told};
ghost use Rattle.prover_core.specs.Progress.{kind_behind};
ghost use Rattle.prover_core.specs.Tasks.{task_behind};

use core_jobs::Done;
use core_tables::{Done as Brought, Inputs, Priority, Task, TaskQueue};
use pide_base::{ExecId, Part, PartKind};
use std::alloc::Global;

/// Whether the tip has a part of the execution that is to be worked on.
pub(crate) fn is_present(queue: &TaskQueue, exec: ExecId) -> bool
    ensures { result ≡ is_some (standing queue.now exec) }
{
    queue.get(exec).is_some()
}

/// Whether the command of an evaluation that is done forks.
pub(crate) fn forks_told<S>(done: &Done<S>) -> bool
    ensures { result ≡ forks_told done.now }
{
    match &done.made {
        Some(made) => made.forks,
        None => false,
    }
}

/// What came of a part, for the table of executions.
pub(crate) fn brought<S>(done: Done<S>, forks: bool) -> Brought<Done<S>>
    ensures { result ≡ brought done.part.kind done forks }
{
    match done.part.kind {
        PartKind::Eval => Brought::Eval {
            result: done,
            forks,
        },
        PartKind::Fork => Brought::Fork { result: done },
        PartKind::Print => Brought::Print { result: done },
    }
}

/// The task of a part that is finished goes. An evaluation is followed by its fork, where its
/// command forks, and those that waited for it wait no more; nobody waits for a fork or a print.
pub(crate) fn follow(
    alloc: Global,
    queue: &mut TaskQueue,
    exec: ExecId,
    kind: PartKind,
    forks: bool,
)
    requires held { IsHeld (standing queue.old exec) }
    requires room { 0 < queue.old.room }
    ensures here { standing queue.new exec ≡ task_behind (kind_behind kind forks) }
    ensures waiters { kind ≡ kinds.Eval → (e : ℕ) → e ≢ exec
        → standing queue.new e ≡ option_map (without exec) (standing queue.old e) }
    ensures free { kind ≡ kinds.Eval → (e : ℕ) → e ≢ exec
        → option_map_or (λ s. has s.inputs exec) (standing queue.new e) false ≡ false }
    ensures others { same_kind kind kinds.Eval ≡ false → (e : ℕ) → e ≢ exec
        → standing queue.new e ≡ standing queue.old e }
    ensures count { length queue.new.tasks ≤ length queue.old.tasks }
    ensures room { queue.old.room ≤ queue.new.room + 1 }
    ensures links { queue.old.links ≤ queue.new.links }
{
    match kind {
        PartKind::Eval => evaluated(alloc, queue, exec, forks),
        PartKind::Fork | PartKind::Print => queue.cancel_group(exec),
    }
}

/// An evaluation is finished.
fn evaluated(alloc: Global, queue: &mut TaskQueue, exec: ExecId, forks: bool)
    requires held { IsHeld (standing queue.old exec) }
    requires room { 0 < queue.old.room }
    ensures here { standing queue.new exec ≡ task_behind (kind_behind kinds.Eval forks) }
    ensures waiters { (e : ℕ) → e ≢ exec
        → standing queue.new e ≡ option_map (without exec) (standing queue.old e) }
    ensures free { (e : ℕ) → e ≢ exec
        → option_map_or (λ s. has s.inputs exec) (standing queue.new e) false ≡ false }
    ensures count { length queue.new.tasks ≤ length queue.old.tasks }
    ensures room { queue.old.room ≤ queue.new.room + 1 }
    ensures links { queue.old.links ≤ queue.new.links }
{
    queue.done(exec);
    if forks {
        queue.enqueue(Task {
            part: Part {
                exec,
                kind: PartKind::Fork,
            },
            priority: Priority::Fork,
            inputs: Inputs::new(alloc),
        });
    }
}

/// The same part.
pub(crate) fn same(part: &Part) -> Part
    ensures { result ≡ part.now }
{
    Part {
        exec: part.exec,
        kind: part.kind,
    }
}
