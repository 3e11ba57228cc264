//! The queue of tasks: which part is taken when (`core_tables`). Executions are told by their
//! numbers.
use crate::walk::answer_walk;
use core_tables::{Inputs, Priority, Task, TaskQueue};
use pide_base::{ExecId, Part, PartKind};
use script_lines::{Fault, number};
use std::alloc::Global;

/// A queue under calls.
#[derive(Drop)]
pub(crate) struct Queue {
    queue: TaskQueue,
}

/// The execution of this number.
pub(crate) fn id(number: u64) -> Result<ExecId, Fault> {
    ExecId::new(number).ok_or(Fault::Line)
}

/// The execution that a word tells.
pub(crate) fn exec(word: &str) -> Result<ExecId, Fault> {
    id(number(word)?)
}

/// Adds the executions that words tell.
fn add_inputs(inputs: &mut Inputs, words: &[&str]) -> Result<(), Fault> {
    for word in words {
        inputs.insert(exec(*word)?)?;
    }
    Ok(())
}

/// Puts a task in, unless the queue has one of the execution or another task waits for it.
pub(crate) fn put(
    queue: &mut TaskQueue,
    part: Part,
    priority: Priority,
    inputs: Inputs,
) -> Result<bool, Fault> {
    queue.reserve(1, inputs.len())?;
    if queue.get(part.exec).is_some() || queue.is_awaited(part.exec) {
        return Ok(false);
    }
    queue.enqueue(Task {
        part,
        priority,
        inputs,
    });
    Ok(true)
}

/// The part of the execution is done, where somebody holds it.
pub(crate) fn done(queue: &mut TaskQueue, exec: ExecId) -> bool {
    let held = match queue.get(exec) {
        Some(standing) => standing.held,
        None => false,
    };
    if held {
        queue.done(exec);
    }
    held
}

/// The part and the priority of a task of this kind.
fn kind_of(kind: &str) -> Result<(PartKind, Priority), Fault> {
    match kind {
        "eval" => Ok((PartKind::Eval, Priority::Eval)),
        "visible-eval" => Ok((PartKind::Eval, Priority::VisibleEval)),
        "fork" => Ok((PartKind::Fork, Priority::Fork)),
        "print" => Ok((PartKind::Print, Priority::Print)),
        _ => Err(Fault::Line),
    }
}

impl Queue {
    pub(crate) fn new(alloc: Global) -> Queue {
        Queue {
            queue: TaskQueue::new(alloc),
        }
    }

    pub(crate) fn answer(
        &mut self,
        alloc: Global,
        words: &[&str],
        out: &mut String,
    ) -> Result<(), Fault> {
        match words {
            [verb] => self.answer_bare(*verb, out),
            [verb, seed, steps] if *verb == "walk" => {
                answer_walk(alloc, number(*seed)?, number(*steps)?, out)
            }
            [verb, exec_word, waits @ ..] => {
                let exec = exec(*exec_word)?;
                match *verb {
                    "done" => self.end(exec, out),
                    "cancel" => self.cancel(exec),
                    "show" => self.show(exec, Priority::VisibleEval),
                    "hide" => self.show(exec, Priority::Eval),
                    kind => self.put(alloc, kind, exec, waits, out),
                }
            }
            _ => Err(Fault::Line),
        }
    }

    fn answer_bare(&mut self, verb: &str, out: &mut String) -> Result<(), Fault> {
        match verb {
            "take" => self.take(out),
            "ready" => self.put_ready(out),
            _ => Err(Fault::Line),
        }
    }

    /// Puts a task of this kind in, which waits for some.
    fn put(
        &mut self,
        alloc: Global,
        kind: &str,
        exec: ExecId,
        waits: &[&str],
        out: &mut String,
    ) -> Result<(), Fault> {
        let (kind, priority) = kind_of(kind)?;
        let mut inputs = Inputs::new(alloc);
        add_inputs(&mut inputs, waits)?;
        let is_put = put(&mut self.queue, Part { exec, kind }, priority, inputs)?;
        Ok(out.push_str(if is_put { "put" } else { "known" })?)
    }

    fn take(&mut self, out: &mut String) -> Result<(), Fault> {
        match self.queue.dequeue() {
            Some(part) => Ok(write!(out, "{}", part.exec.number())?),
            None => Ok(out.push_str("nothing")?),
        }
    }

    fn put_ready(&self, out: &mut String) -> Result<(), Fault> {
        for part in self.queue.ready() {
            write!(out, "{} ", part.exec.number())?;
        }
        Ok(())
    }

    fn end(&mut self, exec: ExecId, out: &mut String) -> Result<(), Fault> {
        let is_done = done(&mut self.queue, exec);
        Ok(out.push_str(if is_done { "done" } else { "not held" })?)
    }

    fn cancel(&mut self, exec: ExecId) -> Result<(), Fault> {
        self.queue.cancel_group(exec);
        Ok(())
    }

    fn show(&mut self, exec: ExecId, priority: Priority) -> Result<(), Fault> {
        self.queue.set_priority(exec, priority);
        Ok(())
    }
}
