//! The table of executions (`core_tables`). The results are numbers here.
use crate::listed::put_some;
use crate::queued::exec;
use core_tables::{Cancelling, Done, Execs, Execution};
use pide_base::{ExecId, PartKind};
use script_lines::{Fault, number};
use std::alloc::Global;

/// A table under calls.
#[derive(Drop)]
pub(crate) struct Executions {
    execs: Execs<u64>,
}

fn kind_of(word: &str) -> Result<PartKind, Fault> {
    match word {
        "eval" => Ok(PartKind::Eval),
        "fork" => Ok(PartKind::Fork),
        "print" => Ok(PartKind::Print),
        _ => Err(Fault::Line),
    }
}

/// What a finished part of this kind brings.
fn done_of(kind: &str, number: u64) -> Result<Done<u64>, Fault> {
    match kind {
        "evaluated" => Ok(Done::Eval {
            result: number,
            forks: false,
        }),
        "evaluated-to-fork" => Ok(Done::Eval {
            result: number,
            forks: true,
        }),
        "forked" => Ok(Done::Fork { result: number }),
        "printed" => Ok(Done::Print { result: number }),
        _ => Err(Fault::Line),
    }
}

impl Executions {
    pub(crate) fn new(alloc: Global) -> Executions {
        Executions {
            execs: Execs::new(alloc),
        }
    }

    pub(crate) fn answer(&mut self, words: &[&str], out: &mut String) -> Result<(), Fault> {
        match words {
            [verb, exec_word] => self.answer_one(*verb, exec(*exec_word)?, out),
            [verb, exec_word, kind] if *verb == "result" => {
                self.put_result(exec(*exec_word)?, kind_of(*kind)?, out)
            }
            [verb, exec_word, brought] => {
                let done = done_of(*verb, number(*brought)?)?;
                self.finish(exec(*exec_word)?, done, out)
            }
            _ => Err(Fault::Line),
        }
    }

    fn answer_one(&mut self, verb: &str, exec: ExecId, out: &mut String) -> Result<(), Fault> {
        match verb {
            "evaluation" => self.insert(exec, Execution::evaluation(), out),
            "print" => self.insert(exec, Execution::print(), out),
            "cancel" => self.cancel(exec, out),
            "forget" => {
                self.execs.forget(&[exec]);
                Ok(())
            }
            _ => Err(Fault::Line),
        }
    }

    fn insert(
        &mut self,
        exec: ExecId,
        execution: Execution<u64>,
        out: &mut String,
    ) -> Result<(), Fault> {
        if self.execs.get(exec).is_some() {
            return Ok(out.push_str("known")?);
        }
        self.execs.reserve(1)?;
        self.execs.insert(exec, execution);
        Ok(out.push_str("put")?)
    }

    fn finish(&mut self, exec: ExecId, done: Done<u64>, out: &mut String) -> Result<(), Fault> {
        let is_finished = self.execs.finish(exec, done).is_ok();
        Ok(out.push_str(if is_finished {
            "finished"
        } else {
            "handed back"
        })?)
    }

    fn cancel(&mut self, exec: ExecId, out: &mut String) -> Result<(), Fault> {
        Ok(out.push_str(match self.execs.cancel(exec) {
            Cancelling::Cancelled => "cancelled",
            Cancelling::Idle => "idle",
            Cancelling::Unknown => "unknown",
        })?)
    }

    fn put_result(&self, exec: ExecId, kind: PartKind, out: &mut String) -> Result<(), Fault> {
        match self.execs.get(exec) {
            Some(execution) => Ok(put_some(out, execution.result_of(kind).copied())?),
            None => Ok(out.push_str("unknown")?),
        }
    }
}
