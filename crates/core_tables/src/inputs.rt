//! The executions that a task waits for.
ghost use Rattle.std.specs.Prelude.{◌≡◌, ◌+◌, ◌==◌, ◌≤◌, ℕ, true, false, [], IfOk, OnOk, if◌then◌else◌, length};
ghost use Rattle.std.specs.List.{list_any};
ghost use Rattle.text_words.specs.Members.{has};
ghost use Rattle.core_tables.specs.Changes.{removed};
ghost use Rattle.core_tables.specs.Waiters.{Waits, HasAll, room_of};

use crate::waiters::Waiters;
use pide_base::ExecId;
use std::alloc::{AllocError, Global};
use std::collections::BTreeSet;
use std::marker::Model;

/// A set of executions. Contracts see it as their ids, rising.
#[derive(Debug, Drop)]
pub struct Inputs {
    numbers: BTreeSet<u64, Global>,
}

impl Model for Inputs {
    ghost use Rattle.std.specs.Prelude.{ℕ, List};

    ghost Value = { List ℕ };

    ghost view = { λ inputs. inputs.numbers.keys };
}

impl Inputs {
    /// No execution.
    pub fn new(alloc: Global) -> Inputs
        ensures { result ≡ [] }
    {
        Inputs {
            numbers: BTreeSet::new(alloc),
        }
    }

    /// Adds an execution.
    pub fn insert(&mut self, exec: ExecId) -> Result<(), AllocError>
        ensures has { OnOk result ((e : ℕ) → has self.new e
            ≡ (if e == exec then true else has self.old e)) }
        ensures len { OnOk result (length self.new ≤ length self.old + 1) }
    {
        self.numbers.insert(exec.number())?;
        Ok(())
    }

    /// Whether the execution is among them.
    pub fn has(&self, exec: ExecId) -> bool
        ensures { result ≡ has self.now exec }
    {
        self.numbers.contains(&exec.number())
    }

    /// Takes an execution out, and says whether it was there.
    pub(crate) fn remove(&mut self, exec: u64) -> bool
        ensures was { result ≡ has self.old exec }
        ensures list { self.new ≡ removed exec self.old }
        ensures has { (e : ℕ) → has self.new e
            ≡ (if e == exec then false else has self.old e) }
    {
        self.numbers.remove(&exec)
    }

    /// Whether it is empty.
    pub fn is_empty(&self) -> bool
        ensures { result ≡ (length self.now == 0) }
    {
        self.numbers.is_empty()
    }

    /// How many executions there are.
    pub fn len(&self) -> usize
        ensures { result ≡ length self.now }
    {
        self.numbers.len()
    }

    /// Has the waiter wait for each of them, in room that was made.
    pub(crate) fn link(&self, waiters: &mut Waiters, waiter: ExecId)
        requires room { length self.now ≤ room_of waiters.old }
        requires all { HasAll waiters.old }
        ensures linked { (e : ℕ) → has self.now e ≡ true → Waits waiters.new e waiter }
        ensures kept { (e w : ℕ) → Waits waiters.old e w → Waits waiters.new e w }
        ensures all { HasAll waiters.new }
        ensures room { room_of waiters.old ≤ room_of waiters.new + length self.now }
    {
        for input in self.numbers.iter() {
            waiters.add(*input, waiter);
        }
    }
}
