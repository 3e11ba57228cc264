//! The table of executions.
ghost use Rattle.std.specs.Prelude.{◌≡◌, ◌↔◌, ◌==◌, ℕ, ◌+◌, ◌<◌, ◌≤◌, [], if◌then◌else◌, Some, None, IsOk, IsSome, IfErr, OnOk, OnErr};
ghost use Rattle.std.specs.Option.{option_copied, option_and_then};
ghost use Rattle.std.specs.List.{list_any};
ghost use Rattle.core_tables.specs.Rows.{execution_of, Updates};
ghost use Rattle.core_tables.specs.Finish.{finished_in, cancelling, after_cancelling};

use crate::execution::{Done, Execution};
use crate::rows::{Rows, cancel_at, finish_at, forget_all, put, reserve};
use pide_base::ExecId;
use std::alloc::{AllocError, Global};
use std::collections::HashMap;
use std::marker::Model;

/// What asking to cancel an execution came to.
#[derive(Clone, Copy, Debug, PartialEq, Eq)]
pub enum Cancelling {
    /// It had an unfinished part and was not cancelled; now it is.
    Cancelled,
    /// All its parts are finished, or it was cancelled already.
    Idle,
    /// The table has no such execution.
    Unknown,
}

/// The executions of the live versions. Contracts see a row for each, and the room: how many more
/// can be inserted without memory.
#[derive(Drop)]
pub struct Execs<R> {
    rows: Rows<R>,
}

impl<R> Model for Execs<R> {
    ghost use Rattle.std.specs.HashMap.{spare};
    ghost use Rattle.core_tables.specs.Rows.{Table};

    ghost Value = { Table R };

    ghost view = { λ execs. record { rows = execs.rows.entries; room = spare execs.rows } };
}

impl<R> Execs<R> {
    /// A table with no rows, which takes no memory.
    pub fn new(alloc: Global) -> Execs<R>
        ensures { result.rows ≡ [] }
    {
        Execs {
            rows: HashMap::new(alloc),
        }
    }

    /// The execution of this id: None exactly where the table has none.
    pub fn get(&self, exec: ExecId) -> Option<&Execution<R>>
        ensures { option_copied result ≡ execution_of self.now.rows exec }
    {
        self.rows.get(&exec.number())
    }
}

impl<R: Drop> Execs<R> {
    /// Makes room for so many more rows. It changes nothing else.
    pub fn reserve(&mut self, count: usize) -> Result<(), AllocError>
        ensures rows { (e : ℕ) → execution_of self.new.rows e ≡ execution_of self.old.rows e }
        ensures ok { OnOk result (count ≤ self.new.room) }
        ensures room { self.old.room ≤ self.new.room }
    {
        reserve(&mut self.rows, count)
    }

    /// Adds an execution, in room that was made. It takes no memory.
    pub fn insert(&mut self, exec: ExecId, execution: Execution<R>)
        requires room { 0 < self.old.room }
        requires fresh { execution_of self.old.rows exec ≡ None }
        ensures row { Updates self.old.rows self.new.rows exec (Some execution) }
        ensures room { self.old.room ≤ self.new.room + 1 }
    {
        put(&mut self.rows, exec.number(), execution);
    }

    /// Finishes a part of an execution. What it brings is handed back, and nothing changes, where
    /// the table has no such execution, it is cancelled, or the part is not the next to finish. It
    /// takes no memory.
    #[tactic(auto, using(crate::proofs::Left::unchanged))]
    pub fn finish(&mut self, exec: ExecId, done: Done<R>) -> Result<(), Done<R>>
        ensures finished { IsOk result
            ↔ IsSome (option_and_then (finished_in done) (execution_of self.old.rows exec)) }
        ensures ok { OnOk result (Updates self.old.rows self.new.rows exec
            (option_and_then (finished_in done) (execution_of self.old.rows exec))) }
        ensures room { self.new.room ≡ self.old.room }
        ensures back { IfErr result (λ back. back ≡ done) }
        ensures err { OnErr result ((e : ℕ) → execution_of self.new.rows e
            ≡ execution_of self.old.rows e) }
    {
        finish_at(&mut self.rows, exec.number(), done)
    }

    /// Cancels an execution that has an unfinished part. It takes no memory.
    pub fn cancel(&mut self, exec: ExecId) -> Cancelling
        ensures answer { result ≡ cancelling (execution_of self.old.rows exec) }
        ensures row { Updates self.old.rows self.new.rows exec
            (after_cancelling (execution_of self.old.rows exec)) }
        ensures room { self.new.room ≡ self.old.room }
    {
        cancel_at(&mut self.rows, exec.number())
    }

    /// Frees the executions with these ids, with their results. The others are not looked at.
    pub fn forget(&mut self, gone: &[ExecId])
        ensures left { (e : ℕ) → execution_of self.new.rows e
            ≡ (if list_any (λ id. id == e) gone.now then None else execution_of self.old.rows e) }
        ensures room { self.old.room ≤ self.new.room }
    {
        forget_all(&mut self.rows, gone);
    }
}
