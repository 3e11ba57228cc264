//! New executions, with their tasks.
ghost use Rattle.std.specs.Prelude.{◌≡◌, ◌+◌, ◌≤◌, ◌<◌, false, length, reverse, IfOk};
ghost use Rattle.pide_base.specs.Ids.{id_end};
ghost use Rattle.core_rules.specs.Ready.{priority_by};
ghost use Rattle.update_plans.specs.Begun.{first_kind, IsBegun, AreBegun, IsFirstTask};

use crate::known::Known;
use crate::sources::unfinished;
use core_tables::{Execs, Priority, Task};
use doc_nodes::Shared;
use exec_rules::{Home, Input};
use joined_results::each_of_three;
use pide_base::{ExecId, Flag, Part, PartKind};
use sqlite_items::Items;
use std::alloc::{AllocError, Global};

/// A new execution: what is known of it, and the task of its first part.
#[derive(Drop)]
pub struct Fresh {
    pub known: Known,
    pub task: Task,
}

/// The new executions that go by these homes and have the numbers from the next one on, by falling
/// numbers: the first stands last. The first part of each waits for what it takes up and is not
/// finished by the table.
pub fn new_executions<R>(
    alloc: Global,
    execs: &Execs<R>,
    next: u64,
    homes: Items<Home>,
) -> Result<Vec<Fresh>, AllocError>
    requires first { 1 ≤ next }
    requires within { next + length homes ≤ id_end }
    ensures { IfOk result (λ all. AreBegun execs.now.rows next homes (reverse all.items)) }
{
    let mut all = Vec::new(alloc);
    let mut rest = homes;
    'homes: while let Some(home) = rest.pop() {
        let exec = ExecId::numbered(next + rest.len() as u64);
        all.push(new_execution(alloc, execs, exec, home)?)?;
    }
    Ok(all)
}

fn new_execution<R>(
    alloc: Global,
    execs: &Execs<R>,
    exec: ExecId,
    home: Home,
) -> Result<Fresh, AllocError>
    ensures { IfOk result (λ one. IsBegun execs.now.rows exec home one) }
{
    let task = first_task(alloc, execs, exec, &home.input);
    let flag = Flag::new(alloc);
    let (task, flag, home) = each_of_three(task, flag, shared(alloc, home))?;
    Ok(Fresh {
        known: Known { home, flag },
        task,
    })
}

fn first_task<R>(
    alloc: Global,
    execs: &Execs<R>,
    exec: ExecId,
    input: &Input,
) -> Result<Task, AllocError>
    ensures { IfOk result (λ task. IsFirstTask execs.now.rows exec input.now task) }
{
    let inputs = unfinished(alloc, execs, input)?;
    let kind = first_kind(input);
    Ok(Task {
        part: Part { exec, kind },
        priority: first_priority(input),
        inputs,
    })
}

fn first_kind(input: &Input) -> PartKind
    ensures { result ≡ first_kind input.now }
{
    match input {
        Input::Print(_) => PartKind::Print,
        Input::First(_) | Input::Next(_) => PartKind::Eval,
    }
}

/// The priority of its first part, as long as its command is not told to be visible.
fn first_priority(input: &Input) -> Priority
    ensures { result ≡ priority_by (first_kind input.now) false }
{
    match input {
        Input::Print(_) => Priority::Print,
        Input::First(_) | Input::Next(_) => Priority::Eval,
    }
}

/// The value in memory that can be shared. For want of memory it is let go.
fn shared<T: Drop>(alloc: Global, value: T) -> Result<Shared<T>, AllocError>
    ensures { IfOk result (λ shared. shared ≡ value) }
{
    match Shared::new(alloc, value) {
        Ok(shared) => Ok(shared),
        Err(_) => Err(AllocError),
    }
}
