//! The queue.
ghost use Rattle.std.specs.Prelude.{◌≡◌, ◌≢◌, ◌+◌, ◌-◌, ◌<◌, nat_lt, ◌≤◌, ◌==◌, ◌↔◌, ℕ, true, false, [], Some, None, length, take, drop, ◌∷◌, ◌++◌, is_some, IfSome, IfNone, IfOk, IsSome, OnOk, OnErr, IsTrue, if◌then◌else◌, AllPairs};
ghost use Rattle.std.specs.Option.{option_map, option_copied};
ghost use Rattle.text_words.specs.Members.{has};
ghost use Rattle.core_tables.specs.Tasks.{standing, is_ready};
ghost use Rattle.core_tables.specs.Ready.{AreReady, IsNext, IsReadyPart, IsPlaceFor, priority_of, comes_first, with_standing};
ghost use Rattle.core_tables.specs.Order.{goes_before};
ghost use Rattle.core_tables.specs.Deque.{capacity_of};
ghost use Rattle.std.specs.HashMap.{hash_map_len, spare};
ghost use Rattle.core_tables.specs.Kept.{looked};
ghost use Rattle.pide_base.specs.Ids.{IsId};
ghost use Rattle.pide_base.specs.declared.part.Part.{Part};
ghost use Rattle.core_tables.specs.declared.task.Standing.{Standing};
ghost use Rattle.core_tables.specs.Changes.{waiting, taken_task, without, with_priority, nobody_waits, IsHeld, ready_kind, released};

use crate::deque::PartDeque;
use crate::inputs::Inputs;
use crate::priority::Priority;
use crate::task::{Standing, Task};
use crate::waiters::Waiters;
use pide_base::{ExecId, Part, PartKind};
use std::alloc::{AllocError, Global};
use std::collections::HashMap;
use std::hash::{BuildHasherDefault, FoldHasher};
use std::marker::Model;

type Table = HashMap<u64, Standing, BuildHasherDefault<FoldHasher>, Global>;

/// Tasks by execution. Contracts see how the present part of each execution stands, the ready parts
/// in order, the next one last, and the room:
/// how many more tasks, and how many more inputs of tasks, fit without memory.
#[derive(Drop)]
pub struct TaskQueue {
    tasks: Table,
    waiters: Waiters,
    ready: PartDeque,
}

impl Model for TaskQueue {
    ghost use Rattle.core_tables.specs.Tasks.{Queue};
    ghost use Rattle.core_tables.specs.Kept.{seen, IsKept};

    ghost Value = { Queue };

    ghost view = { seen };

    ghost invariant = { IsKept };
}

impl TaskQueue {
    /// A queue of no tasks, which takes no memory.
    pub fn new(alloc: Global) -> TaskQueue
        ensures tasks { (e : ℕ) → standing result e ≡ None }
        ensures count { length result.tasks ≡ 0 }
    {
        TaskQueue {
            tasks: HashMap::new(alloc),
            waiters: Waiters::new(alloc),
            ready: PartDeque::new(alloc),
        }
    }

    /// The ready parts, the one that is taken next standing last.
    pub fn ready(&self) -> &[Part]
        ensures parts { result.now ≡ self.now.ready }
        ensures ready { AreReady (standing self.now) result.now }
    {
        self.ready.as_slice()
    }

    /// How the present part of the execution stands: None exactly where the queue has none.
    pub fn get(&self, exec: ExecId) -> Option<&Standing>
        ensures { option_copied result ≡ standing self.now exec }
    {
        self.tasks.get(&exec.number())
    }

    /// How many executions have a task.
    pub fn count(&self) -> usize
        ensures { result ≡ length self.now.tasks }
    {
        self.tasks.len()
    }

    /// The executions that have a task, in no order.
    pub fn executions(&self, alloc: Global) -> Result<Vec<ExecId>, AllocError>
        ensures { IfOk result (λ found. (e : ℕ) → IsId e
            → has found.items e ≡ is_some (standing self.now e)) }
    {
        let mut found = Vec::new(alloc);
        for number in self.tasks.keys() {
            if let Some(exec) = ExecId::new(*number) {
                found.push(exec)?;
            }
        }
        Ok(found)
    }

    /// Whether a task waits for the execution. It looks at all tasks; who puts tasks in by rising
    /// ids, each behind those that it waits for, need not ask.
    pub fn is_awaited(&self, exec: ExecId) -> bool
        ensures { IsTrue result ↔ ((e : ℕ) × (s : Standing) × (standing self.now e ≡ Some s)
            × (has s.inputs exec ≡ true)) }
    {
        for (_, standing) in self.tasks.iter() {
            if standing.inputs.has(exec) {
                return true;
            }
        }
        false
    }

    /// Makes room for so many more tasks, which have so many inputs in all. At an error all tasks
    /// are as before, and no room is lost.
    pub fn reserve(&mut self, tasks: usize, inputs: usize) -> Result<(), AllocError>
        ensures tasks { (e : ℕ) → standing self.new e ≡ standing self.old e }
        ensures count { length self.new.tasks ≡ length self.old.tasks }
        ensures ok { OnOk result (tasks ≤ self.new.room) }
        ensures links { OnOk result (inputs ≤ self.new.links) }
        ensures room { self.old.room ≤ self.new.room }
        ensures old_links { self.old.links ≤ self.new.links }
    {
        let Some(capacity) = self.tasks.len().checked_add(tasks) else {
            return Err(AllocError);
        };
        let Some(slots) = capacity.checked_mul(2) else {
            return Err(AllocError);
        };
        self.tasks.reserve(tasks)?;
        self.waiters.reserve(inputs)?;
        self.ready.reserve(slots)
    }

    /// Puts a task in, in room that was made. Tasks that wait for it are put in later.
    pub fn enqueue(&mut self, task: Task)
        requires new { standing self.old task.part.exec ≡ None }
        requires first { nobody_waits self.old task.part.exec }
        requires room { 0 < self.old.room }
        requires links { length task.inputs ≤ self.old.links }
        ensures tasks { (e : ℕ) → standing self.new e
            ≡ with_standing (standing self.old) task.part.exec (Some (waiting task)) e }
        ensures count { length self.new.tasks ≡ length self.old.tasks + 1 }
        ensures room { self.old.room ≤ self.new.room + 1 }
        ensures links { self.old.links ≤ self.new.links + length task.inputs }
    {
        let Task {
            part: Part { exec, kind },
            priority,
            inputs,
        } = task;
        let number = exec.number();
        let at = self.place(priority, number);
        inputs.link(&mut self.waiters, exec);
        if inputs.is_empty() {
            self.ready.insert(at, Part { exec, kind });
        }
        put(
            &mut self.tasks,
            number,
            Standing::waiting(kind, priority, inputs),
        );
    }

    /// Where a part of this priority and execution belongs among the ready ones.
    fn place(&self, priority: Priority, exec: u64) -> usize
        ensures { IsPlaceFor (standing self.now) priority exec self.now.ready result }
    {
        place(&self.tasks, self.ready.as_slice(), priority, exec)
    }

    /// The part of the execution is done: nobody waits for it any more.
    pub fn done(&mut self, exec: ExecId)
        requires held { IsHeld (standing self.old exec) }
        ensures gone { standing self.new exec ≡ None }
        ensures others { (e : ℕ) → e ≢ exec → standing self.new e
            ≡ option_map (without exec) (standing self.old e) }
        ensures free { nobody_waits self.new exec }
        ensures count { length self.new.tasks + 1 ≡ length self.old.tasks }
        ensures room { self.old.room ≤ self.new.room }
        ensures links { self.old.links ≤ self.new.links }
    {
        let number = exec.number();
        remove(&mut self.tasks, number);
        while let Some(waiter) = self.waiters.next(number) {
            meet(&mut self.tasks, &mut self.ready, waiter, number);
        }
    }

    /// Lets the part of the execution go, whether it waits, is ready or is held. What waits for it
    /// is never ready.
    pub fn cancel_group(&mut self, exec: ExecId)
        ensures tasks { (e : ℕ)
            → standing self.new e ≡ with_standing (standing self.old) exec None e }
        ensures count { length self.new.tasks
            + (if is_some (standing self.old exec) then 1 else 0) ≡ length self.old.tasks }
        ensures room { self.old.room ≤ self.new.room }
        ensures links { self.old.links ≤ self.new.links }
    {
        let number = exec.number();
        if let Some(_) = self.ready_kind(number) {
            let at = self.place_of(number);
            self.ready.remove(at);
        }
        remove(&mut self.tasks, number);
        self.waiters.clear(number);
    }

    /// Gives the execution's present part another priority, where it has one.
    pub fn set_priority(&mut self, exec: ExecId, priority: Priority)
        ensures tasks { (e : ℕ) → standing self.new e ≡ with_standing (standing self.old) exec
            (option_map (with_priority priority) (standing self.old exec)) e }
        ensures count { length self.new.tasks ≡ length self.old.tasks }
        ensures room { self.old.room ≤ self.new.room }
        ensures links { self.old.links ≤ self.new.links }
    {
        let number = exec.number();
        if let Some(kind) = self.ready_kind(number) {
            let old = self.place_of(number);
            let new = self.place(priority, number);
            self.ready.remove(old);
            self.ready.insert(behind(new, old), Part { exec, kind });
        }
        rank(&mut self.tasks, number, priority);
    }

    /// What kind of part the execution has, where that is ready.
    fn ready_kind(&self, exec: u64) -> Option<PartKind>
        ensures { result ≡ ready_kind (standing self.now exec) }
    {
        match self.tasks.get(&exec) {
            Some(standing) => standing.ready_kind(),
            None => None,
        }
    }

    /// Where the execution's present part stands among the ready ones, or would stand.
    fn place_of(&self, exec: u64) -> usize
        ensures { IsPlaceFor (standing self.now) (priority_of (standing self.now) exec) exec
            self.now.ready result }
    {
        self.place(priority_at(&self.tasks, exec), exec)
    }

    /// Takes the next ready part: None exactly where none is ready.
    pub fn dequeue(&mut self) -> Option<Part>
        ensures some { IfSome result (λ part. IsNext (standing self.old) part) }
        ensures none { IfNone result ((part : Part) → IsReadyPart (standing self.old) part → ⊥) }
        ensures tasks { IfSome result (λ part. (e : ℕ) → standing self.new e
            ≡ with_standing (standing self.old) part.exec
            (option_map taken_task (standing self.old part.exec)) e) }
        ensures unchanged { IfNone result (self.new ≡ self.old) }
        ensures count { length self.new.tasks ≡ length self.old.tasks }
        ensures room { self.old.room ≤ self.new.room }
        ensures links { self.old.links ≤ self.new.links }
    {
        match self.ready.pop() {
            None => None,
            Some(part) => {
                hold(&mut self.tasks, part.exec.number());
                Some(part)
            }
        }
    }
}

/// Notes that somebody has taken the execution's present part.
fn hold(tasks: &mut Table, exec: u64)
    ensures tasks { (e : ℕ) → looked tasks.new e
        ≡ with_standing (looked tasks.old) exec (option_map taken_task (looked tasks.old exec)) e }
    ensures len { hash_map_len tasks.new ≡ hash_map_len tasks.old }
    ensures room { spare tasks.new ≡ spare tasks.old }
{
    if let Some(standing) = tasks.get_mut(&exec) {
        standing.held = true;
    }
}

/// Puts an execution in that has no part there, in room that was made.
fn put(tasks: &mut Table, exec: u64, standing: Standing)
    requires new { looked tasks.old exec ≡ None }
    requires room { 0 < spare tasks.old }
    ensures tasks { (e : ℕ) → looked tasks.new e
        ≡ with_standing (looked tasks.old) exec (Some standing) e }
    ensures len { hash_map_len tasks.new ≡ hash_map_len tasks.old + 1 }
    ensures room { spare tasks.old ≤ spare tasks.new + 1 }
{
    match tasks.insert(exec, standing) {
        Ok(before) => drop(before),
        Err(_) => unreachable!(),
    }
}

/// The execution has no part there any more.
fn remove(tasks: &mut Table, exec: u64)
    ensures tasks { (e : ℕ) → looked tasks.new e ≡ with_standing (looked tasks.old) exec None e }
    ensures len { hash_map_len tasks.new ≤ hash_map_len tasks.old }
    ensures count { hash_map_len tasks.new + (if is_some (looked tasks.old exec) then 1 else 0)
        ≡ hash_map_len tasks.old }
    ensures room { spare tasks.old ≤ spare tasks.new }
{
    drop(tasks.remove(&exec));
}

/// Gives the execution's present part another priority.
fn rank(tasks: &mut Table, exec: u64, priority: Priority)
    ensures tasks { (e : ℕ) → looked tasks.new e ≡ with_standing (looked tasks.old) exec
        (option_map (with_priority priority) (looked tasks.old exec)) e }
    ensures len { hash_map_len tasks.new ≡ hash_map_len tasks.old }
    ensures room { spare tasks.new ≡ spare tasks.old }
{
    if let Some(standing) = tasks.get_mut(&exec) {
        standing.priority = priority;
    }
}

/// The waiter waits no more for the execution, and what it is to be put among the ready parts as,
/// where it is ready now.
fn release(tasks: &mut Table, waiter: u64, exec: u64) -> Option<PartKind>
    ensures tasks { (e : ℕ) → looked tasks.new e ≡ with_standing (looked tasks.old) waiter
        (option_map (without exec) (looked tasks.old waiter)) e }
    ensures len { hash_map_len tasks.new ≡ hash_map_len tasks.old }
    ensures room { spare tasks.new ≡ spare tasks.old }
    ensures kind { result ≡ released exec (looked tasks.old waiter) }
    ensures free { (s : Standing) → looked tasks.new waiter ≡ Some s → has s.inputs exec ≡ false }
{
    let Some(standing) = tasks.get_mut(&waiter) else {
        return None;
    };
    if !standing.inputs.remove(exec) {
        return None;
    }
    standing.ready_kind()
}

/// The place, once the part at another one is taken out.
fn behind(place: usize, other: usize) -> usize
    ensures { result ≡ (if nat_lt other place then place - 1 else place) }
{
    if other < place { place - 1 } else { place }
}

/// The waiter waits no more for the execution; where it is ready now, it is put among the ready
/// parts.
fn meet(tasks: &mut Table, ready: &mut PartDeque, waiter: ExecId, exec: u64)
    requires ready { AreReady (looked tasks.old) ready.old.parts }
    requires room { hash_map_len tasks.old ≤ capacity_of ready.old }
    ensures tasks { (e : ℕ) → looked tasks.new e ≡ with_standing (looked tasks.old) waiter
        (option_map (without exec) (looked tasks.old waiter)) e }
    ensures free { (s : Standing) → looked tasks.new waiter ≡ Some s → has s.inputs exec ≡ false }
    ensures ready { AreReady (looked tasks.new) ready.new.parts }
    ensures len { hash_map_len tasks.new ≡ hash_map_len tasks.old }
    ensures room { spare tasks.new ≡ spare tasks.old }
    ensures capacity { capacity_of ready.new ≡ capacity_of ready.old }
{
    let number = waiter.number();
    let at = place(tasks, ready.as_slice(), priority_at(tasks, number), number);
    if let Some(kind) = release(tasks, number, exec) {
        ready.insert(at, Part { exec: waiter, kind });
    }
}

/// The priority of an execution's present part.
fn priority_at(tasks: &Table, exec: u64) -> Priority
    ensures { result ≡ priority_of (looked tasks.now) exec }
{
    match tasks.get(&exec) {
        Some(standing) => standing.priority,
        None => Priority::Fork,
    }
}

/// Whether the first is taken before the second.
fn goes_before(priority: Priority, exec: u64, other: Priority, other_exec: u64) -> bool
    ensures { result ≡ goes_before priority exec other other_exec }
{
    other.height() < priority.height() || priority.height() == other.height() && exec < other_exec
}

/// Where a part of this priority and execution belongs among the ready ones.
fn place(tasks: &Table, parts: &[Part], priority: Priority, exec: u64) -> usize
    requires { AllPairs (λ p q. comes_first (looked tasks.now) q.exec p.exec ≡ true) parts.now }
    ensures { IsPlaceFor (looked tasks.now) priority exec parts.now result }
{
    let mut low = 0;
    let mut high = parts.len();
    while low < high {
        let middle = low + (high - low) / 2;
        let other = parts[middle].exec.number();
        if goes_before(priority, exec, priority_at(tasks, other), other) {
            low = middle + 1;
        } else {
            high = middle;
        }
    }
    low
}
