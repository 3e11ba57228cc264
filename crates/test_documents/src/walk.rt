//! A walk of the queue of tasks beside one that looks through a plain list.
use crate::queued::{done, id, put};
use core_tables::{Inputs, Priority, TaskQueue};
use pide_base::{ExecId, Part, PartKind};
use script_lines::Fault;
use std::alloc::{AllocError, Global};

/// A task of the plain list. Only evaluations are put in, visible or not.
#[derive(Drop)]
struct Listed {
    exec: u64,
    visible: bool,
    waits: Vec<u64>,
    held: bool,
}

/// A queue that scans.
#[derive(Drop)]
struct Plain {
    tasks: Vec<Listed>,
}

impl Plain {
    fn has(&self, exec: u64) -> bool {
        self.tasks.iter().any(|task| task.exec == exec)
    }

    fn is_held(&self, exec: u64) -> bool {
        self.tasks.iter().any(|task| task.exec == exec && task.held)
    }

    /// The ready ones, the next one last: invisible ones first, of each kind the youngest first.
    fn ready(&self, alloc: Global) -> Result<Vec<u64>, AllocError> {
        let mut all = Vec::new(alloc);
        for visible in [false, true] {
            self.put_ready(alloc, visible, &mut all)?;
        }
        Ok(all)
    }

    /// The ready ones that are visible, or those that are not, the youngest first.
    fn put_ready(
        &self,
        alloc: Global,
        visible: bool,
        all: &mut Vec<u64>,
    ) -> Result<(), AllocError> {
        let mut some = Vec::new(alloc);
        for task in self.tasks.iter() {
            if task.visible == visible && !task.held && task.waits.is_empty() {
                some.push(task.exec)?;
            }
        }
        some.sort()?;
        some.reverse();
        all.extend_from_slice(&some)
    }

    fn hold(&mut self, exec: u64) {
        for task in self.tasks.iter_mut() {
            if task.exec == exec {
                task.held = true;
            }
        }
    }

    fn show(&mut self, exec: u64) {
        for task in self.tasks.iter_mut() {
            if task.exec == exec {
                task.visible = true;
            }
        }
    }

    fn cancel(&mut self, exec: u64) {
        self.tasks.retain(|task| task.exec != exec);
    }

    fn done(&mut self, exec: u64) {
        self.cancel(exec);
        for task in self.tasks.iter_mut() {
            task.waits.retain(|wait| *wait != exec);
        }
    }
}

/// The next of a row of numbers that look random (Lehmer 1951).
fn next(number: u64) -> u64 {
    number % 2_147_483_647 * 48_271 % 2_147_483_647
}

/// One of the executions so far, by the number.
fn one_of(exec: u64, number: u64) -> u64 {
    if exec == 0 {
        return 1;
    }
    (number % exec).saturating_add(1)
}

fn priority_of(visible: bool) -> Priority {
    if visible {
        Priority::VisibleEval
    } else {
        Priority::Eval
    }
}

/// The queue, and the list beside it.
#[derive(Drop)]
struct Both {
    queue: TaskQueue,
    plain: Plain,
}

impl Both {
    fn new(alloc: Global) -> Both {
        Both {
            queue: TaskQueue::new(alloc),
            plain: Plain {
                tasks: Vec::new(alloc),
            },
        }
    }

    /// Those of these two that the list has.
    fn waits_for(&self, alloc: Global, one: u64, other: u64) -> Result<Vec<u64>, AllocError> {
        let mut waits = Vec::new(alloc);
        for exec in [one, other] {
            if self.plain.has(exec) {
                waits.push(exec)?;
            }
        }
        Ok(waits)
    }

    /// A task that waits for some of the older ones is put in both.
    fn put(&mut self, alloc: Global, exec: u64, number: u64) -> Result<bool, Fault> {
        let older = one_of(exec, number / 16);
        let waits = self.waits_for(alloc, older, one_of(exec, number / 64))?;
        self.put_waiting(alloc, exec.saturating_add(1), number % 16 < 8, waits)
    }

    fn put_waiting(
        &mut self,
        alloc: Global,
        exec: u64,
        visible: bool,
        waits: Vec<u64>,
    ) -> Result<bool, Fault> {
        let fits = self.queue_up(alloc, id(exec)?, visible, &waits)?;
        self.plain.tasks.push(Listed {
            exec,
            visible,
            waits,
            held: false,
        })?;
        Ok(fits)
    }

    fn queue_up(
        &mut self,
        alloc: Global,
        exec: ExecId,
        visible: bool,
        waits: &[u64],
    ) -> Result<bool, Fault> {
        let mut inputs = Inputs::new(alloc);
        for wait in waits {
            inputs.insert(id(*wait)?)?;
        }
        let kind = PartKind::Eval;
        put(
            &mut self.queue,
            Part { exec, kind },
            priority_of(visible),
            inputs,
        )
    }

    /// The next task is taken from both, where there is one.
    fn take(&mut self, alloc: Global) -> Result<bool, Fault> {
        match self.queue.dequeue() {
            Some(part) => {
                self.plain.hold(part.exec.number());
                Ok(true)
            }
            None => Ok(self.plain.ready(alloc)?.is_empty()),
        }
    }

    /// The task is done in both, where it is held.
    fn end(&mut self, exec: u64) -> Result<bool, Fault> {
        let is_held = self.plain.is_held(exec);
        let fits = done(&mut self.queue, id(exec)?) == is_held;
        if is_held {
            self.plain.done(exec);
        }
        Ok(fits)
    }

    fn show(&mut self, exec: u64) -> Result<bool, Fault> {
        self.queue.set_priority(id(exec)?, Priority::VisibleEval);
        self.plain.show(exec);
        Ok(true)
    }

    fn cancel(&mut self, exec: u64) -> Result<bool, Fault> {
        self.queue.cancel_group(id(exec)?);
        self.plain.cancel(exec);
        Ok(true)
    }

    /// One step, chosen by the number.
    fn step(&mut self, alloc: Global, exec: u64, number: u64) -> Result<bool, Fault> {
        let older = one_of(exec, number / 16);
        match number % 8 {
            0 | 1 | 2 => self.put(alloc, exec, number),
            3 | 4 => self.take(alloc),
            5 => self.end(older),
            6 => self.show(older),
            _ => self.cancel(older),
        }
    }

    /// Whether the ready parts are the same.
    fn agree(&self, alloc: Global) -> Result<bool, Fault> {
        let numbers = self.plain.ready(alloc)?;
        let parts = self.queue.ready();
        if parts.len() != numbers.len() {
            return Ok(false);
        }
        for (part, number) in parts.iter().zip(&numbers) {
            if part.exec.number() != *number {
                return Ok(false);
            }
        }
        Ok(true)
    }
}

/// The first of so many steps from this number on at which the two differ.
fn first_other(
    alloc: Global,
    both: &mut Both,
    seed: u64,
    steps: u64,
) -> Result<Option<u64>, Fault> {
    let mut number = seed;
    for exec in 1..steps {
        number = next(number);
        if !both.step(alloc, exec, number)? || !both.agree(alloc)? {
            return Ok(Some(exec));
        }
    }
    Ok(None)
}

/// So many steps from this number on: the first one at which the two differ, or `equal`.
pub(crate) fn answer_walk(
    alloc: Global,
    seed: u64,
    steps: u64,
    out: &mut String,
) -> Result<(), Fault> {
    let mut both = Both::new(alloc);
    let other = first_other(alloc, &mut both, seed, steps);
    drop(both);
    match other? {
        Some(step) => Ok(write!(out, "{step}")?),
        None => Ok(out.push_str("equal")?),
    }
}
