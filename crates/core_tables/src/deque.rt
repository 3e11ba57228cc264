//! Parts side by side, with room at both ends.
ghost use Rattle.std.specs.Prelude.{◌≡◌, ◌+◌, ◌-◌, ◌<◌, ◌≤◌, ◌∷◌, [], ◌++◌, length, take, drop, OnOk, OnErr, IfSome, IfNone};
ghost use Rattle.core_tables.specs.Deque.{capacity_of};

use pide_base::{ExecId, Part, PartKind};
use std::alloc::{AllocError, Global};
use std::marker::Model;

/// A list of parts that lie side by side in the middle of their room, so that putting one in or
/// taking one out moves the shorter side. Contracts see the list and its capacity.
#[derive(Debug, Drop)]
pub(crate) struct PartDeque {
    slots: Vec<Part>,
    start: usize,
    stop: usize,
}

impl Model for PartDeque {
    ghost use Rattle.std.specs.Prelude.{◌-◌, ◌≤◌, take, drop, length};
    ghost use Rattle.core_tables.specs.Deque.{Deque};

    ghost Value = { Deque };

    ghost view = { λ deque. record {
      parts = take (deque.stop - deque.start) (drop deque.start deque.slots.items);
      below = deque.start;
      above = length deque.slots.items - deque.stop;
    } };

    ghost invariant = { λ deque.
        (deque.start ≤ deque.stop) × (deque.stop ≤ length deque.slots.items) };
}

/// What stands in a slot that holds no part.
fn blank() -> Part {
    Part {
        exec: ExecId::numbered(1),
        kind: PartKind::Eval,
    }
}

impl PartDeque {
    pub(crate) fn new(alloc: Global) -> PartDeque
        ensures { result.parts ≡ [] }
    {
        PartDeque {
            slots: Vec::new(alloc),
            start: 0,
            stop: 0,
        }
    }

    pub(crate) fn as_slice(&self) -> &[Part]
        ensures { result.now ≡ self.now.parts }
    {
        &self.slots[self.start..self.stop]
    }

    /// Makes room for so many parts in all. At an error all is as before.
    pub(crate) fn reserve(&mut self, capacity: usize) -> Result<(), AllocError>
        ensures parts { self.new.parts ≡ self.old.parts }
        ensures ok { OnOk result (capacity ≤ capacity_of self.new) }
        ensures kept { capacity_of self.old ≤ capacity_of self.new }
        ensures err { OnErr result (self.new ≡ self.old) }
    {
        if self.slots.len() < capacity {
            self.slots.resize(capacity, blank())?;
        }
        Ok(())
    }

    /// Takes the last part out.
    pub(crate) fn pop(&mut self) -> Option<Part>
        ensures some { IfSome result (λ part. self.old.parts ≡ self.new.parts ++ part ∷ []) }
        ensures none { IfNone result ((self.old.parts ≡ []) × (self.new.parts ≡ [])) }
        ensures capacity { capacity_of self.new ≡ capacity_of self.old }
    {
        if self.start == self.stop {
            return None;
        }
        self.stop -= 1;
        Some(self.slots[self.stop])
    }

    /// Puts a part in at a place, in room that was made.
    pub(crate) fn insert(&mut self, at: usize, part: Part)
        requires within { at ≤ length self.old.parts }
        requires room { 0 < self.old.below + self.old.above }
        ensures parts { self.new.parts ≡ take at self.old.parts ++ part ∷ drop at self.old.parts }
        ensures capacity { capacity_of self.new ≡ capacity_of self.old }
    {
        let count = self.stop - self.start;
        if self.has_no_room(at <= count / 2) {
            self.center();
        }
        if 0 < self.start && (at <= count / 2 || self.stop == self.slots.len()) {
            self.insert_from_start(at, part);
        } else {
            self.insert_from_stop(at, part);
        }
    }

    /// Takes the part at a place out.
    pub(crate) fn remove(&mut self, at: usize)
        requires { at < length self.old.parts }
        ensures parts { self.new.parts ≡ take at self.old.parts ++ drop (at + 1) self.old.parts }
        ensures capacity { capacity_of self.new ≡ capacity_of self.old }
    {
        if at < (self.stop - self.start) / 2 {
            close_up(&mut self.slots, self.start, at);
            self.start += 1;
        } else {
            close_down(&mut self.slots, self.start + at, self.stop);
            self.stop -= 1;
        }
    }

    fn has_no_room(&self, at_start: bool) -> bool {
        if at_start {
            self.start == 0
        } else {
            self.stop == self.slots.len()
        }
    }

    /// Moves the parts to the middle of their room.
    fn center(&mut self)
        ensures parts { self.new.parts ≡ self.old.parts }
        ensures capacity { capacity_of self.new ≡ capacity_of self.old }
    {
        let count = self.stop - self.start;
        let start = (self.slots.len() - count) / 2;
        if start < self.start {
            self.slots[start..self.stop].rotate_left(self.start - start);
        } else {
            self.slots[self.start..start + count].rotate_right(start - self.start);
        }
        self.start = start;
        self.stop = start + count;
    }

    /// Moves the parts before the place down by one, and puts the part between.
    fn insert_from_start(&mut self, at: usize, part: Part)
        requires within { at ≤ length self.old.parts }
        requires room { 0 < self.old.below }
        ensures parts { self.new.parts ≡ take at self.old.parts ++ part ∷ drop at self.old.parts }
        ensures capacity { capacity_of self.new ≡ capacity_of self.old }
    {
        self.start -= 1;
        shift_down(&mut self.slots, self.start, at, part);
    }

    /// Moves the parts from the place on up by one, and puts the part between.
    fn insert_from_stop(&mut self, at: usize, part: Part)
        requires within { at ≤ length self.old.parts }
        requires room { 0 < self.old.above }
        ensures parts { self.new.parts ≡ take at self.old.parts ++ part ∷ drop at self.old.parts }
        ensures capacity { capacity_of self.new ≡ capacity_of self.old }
    {
        shift_up(&mut self.slots, self.start + at, self.stop, part);
        self.stop += 1;
    }
}

/// Moves the slots of `start + 1 .. start + 1 + count` down by one, and puts the part behind them.
fn shift_down(slots: &mut [Part], start: usize, count: usize, part: Part)
    requires { start + count < length slots.old }
    ensures { slots.new ≡ take start slots.old ++ take count (drop (start + 1) slots.old)
        ++ part ∷ drop (start + 1 + count) slots.old }
{
    slots[start] = part;
    slots[start..start + count + 1].rotate_left(1);
}

/// Moves the slots of `at .. stop` up by one, and puts the part before them.
fn shift_up(slots: &mut [Part], at: usize, stop: usize, part: Part)
    requires order { at ≤ stop }
    requires within { stop < length slots.old }
    ensures len { length slots.new ≡ length slots.old }
    ensures moved { take (stop + 1) slots.new
        ≡ take at slots.old ++ part ∷ take (stop - at) (drop at slots.old) }
{
    slots[stop] = part;
    slots[at..stop + 1].rotate_left(stop - at);
}

/// Moves the slots of `start .. start + count` up by one, over the next one.
fn close_up(slots: &mut [Part], start: usize, count: usize)
    requires { start + count < length slots.old }
    ensures len { length slots.new ≡ length slots.old }
    ensures moved { drop (start + 1) slots.new
        ≡ take count (drop start slots.old) ++ drop (start + 1 + count) slots.old }
{
    slots[start..start + count + 1].rotate_right(1);
}

/// Moves the slots of `at + 1 .. stop` down by one, over the one before.
fn close_down(slots: &mut [Part], at: usize, stop: usize)
    requires order { at < stop }
    requires within { stop ≤ length slots.old }
    ensures len { length slots.new ≡ length slots.old }
    ensures moved { take (stop - 1) slots.new
        ≡ take at slots.old ++ take (stop - at - 1) (drop (at + 1) slots.old) }
{
    slots[at..stop].rotate_left(1);
}
