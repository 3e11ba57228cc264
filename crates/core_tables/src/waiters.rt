//! Which tasks wait for an execution.
ghost use Rattle.std.specs.Prelude.{◌≡◌, ◌+◌, ◌<◌, ◌≤◌, ◌⊎◌, ◌==◌, ◌&&◌, ℕ, ◌≢◌, Some, None, OnOk, IfSome, IfNone, if◌then◌else◌};
ghost use Rattle.core_tables.specs.Waiters.{Waits, count_of, link_of, HasAll, room_of};
ghost use Rattle.std.specs.HashMap.{spare};

use pide_base::ExecId;
use std::alloc::{AllocError, Global};
use std::collections::HashMap;
use std::hash::{BuildHasherDefault, FoldHasher};

/// One of those that wait for an execution, from 0.
#[derive(Clone, Copy, Debug, PartialEq, Eq, Hash)]
pub(crate) struct Link {
    input: u64,
    number: usize,
}

/// For each execution those that wait for it. Some of them may wait no more: who asks has to look.
#[derive(Drop)]
pub(crate) struct Waiters {
    counts: HashMap<u64, usize, BuildHasherDefault<FoldHasher>, Global>,
    links: HashMap<Link, ExecId, BuildHasherDefault<FoldHasher>, Global>,
}

impl Waiters {
    pub(crate) fn new(alloc: Global) -> Waiters
        ensures { HasAll result }
    {
        Waiters {
            counts: HashMap::new(alloc),
            links: HashMap::new(alloc),
        }
    }

    /// Makes room for so many more links.
    pub(crate) fn reserve(&mut self, count: usize) -> Result<(), AllocError>
        ensures same { (e w : ℕ) → Waits self.old e w → Waits self.new e w }
        ensures all { HasAll self.old → HasAll self.new }
        ensures room { room_of self.old ≤ room_of self.new }
        ensures ok { OnOk result (count ≤ room_of self.new) }
    {
        self.counts.reserve(count)?;
        self.links.reserve(count)
    }

    fn count(&self, input: u64) -> usize
        ensures { result ≡ count_of self.now input }
    {
        match self.counts.get(&input) {
            Some(count) => *count,
            None => 0,
        }
    }

    /// Adds a waiter, in room that was made.
    pub(crate) fn add(&mut self, input: u64, waiter: ExecId)
        requires room { 0 < room_of self.old }
        requires all { HasAll self.old }
        ensures added { Waits self.new input waiter }
        ensures kept { (e w : ℕ) → Waits self.old e w → Waits self.new e w }
        ensures all { HasAll self.new }
        ensures room { room_of self.old ≤ room_of self.new + 1 }
    {
        let number = self.count(input);
        if self.links.len() < number {
            unreachable!()
        }
        self.put_link(Link { input, number }, waiter);
        self.put_count(input, number + 1);
    }

    fn put_count(&mut self, input: u64, count: usize)
        requires room { 0 < spare self.old.counts }
        ensures count { (e : ℕ) → count_of self.new e
            ≡ (if input == e then count else count_of self.old e) }
        ensures links { self.new.links ≡ self.old.links }
        ensures room { spare self.old.counts ≤ spare self.new.counts + 1 }
    {
        if self.counts.insert(input, count).is_err() {
            unreachable!()
        }
    }

    fn put_link(&mut self, link: Link, waiter: ExecId)
        requires room { 0 < spare self.old.links }
        ensures link { (e n : ℕ) → link_of self.new e n
            ≡ (if link.input == e && link.number == n then Some waiter else link_of self.old e n) }
        ensures counts { self.new.counts ≡ self.old.counts }
        ensures room { spare self.old.links ≤ spare self.new.links + 1 }
    {
        match self.links.insert(link, waiter) {
            Ok(_) => {}
            Err(_) => unreachable!(),
        }
    }

    fn take_link(&mut self, link: Link) -> Option<ExecId>
        ensures taken { result ≡ link_of self.old link.input link.number }
        ensures link { (e n : ℕ) → link_of self.new e n
            ≡ (if link.input == e && link.number == n then None else link_of self.old e n) }
        ensures counts { self.new.counts ≡ self.old.counts }
        ensures room { spare self.old.links ≤ spare self.new.links }
    {
        self.links.remove(&link)
    }

    /// Makes the count smaller, which is not 0.
    fn lower_count(&mut self, input: u64, count: usize)
        requires { count < count_of self.old input }
        ensures count { (e : ℕ) → count_of self.new e
            ≡ (if input == e then count else count_of self.old e) }
        ensures links { self.new.links ≡ self.old.links }
        ensures room { spare self.old.counts ≤ spare self.new.counts }
    {
        if count == 0 {
            self.counts.remove(&input);
        } else if let Some(kept) = self.counts.get_mut(&input) {
            *kept = count;
        }
    }

    /// Takes one of those that wait for it out: None where there is none.
    pub(crate) fn next(&mut self, input: u64) -> Option<ExecId>
        requires all { HasAll self.old }
        ensures some { IfSome result (λ w. (v : ℕ) → Waits self.old input v
            → (v ≡ w) ⊎ Waits self.new input v) }
        ensures none { IfNone result ((v : ℕ) → Waits self.old input v → ⊥) }
        ensures kept { (e w : ℕ) → e ≢ input → Waits self.old e w → Waits self.new e w }
        ensures all { HasAll self.new }
        ensures room { room_of self.old ≤ room_of self.new }
        ensures fewer { IfSome result (λ _. count_of self.new input < count_of self.old input) }
    {
        let count = self.count(input);
        if count == 0 {
            return None;
        }
        let number = count - 1;
        self.lower_count(input, number);
        self.take_link(Link { input, number })
    }

    /// Forgets all that wait for it.
    pub(crate) fn clear(&mut self, input: u64)
        requires all { HasAll self.old }
        ensures kept { (e w : ℕ) → e ≢ input → Waits self.old e w → Waits self.new e w }
        ensures all { HasAll self.new }
        ensures room { room_of self.old ≤ room_of self.new }
    {
        while let Some(_) = self.next(input) {}
    }
}
