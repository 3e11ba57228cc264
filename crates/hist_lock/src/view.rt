//! What a pass knows. No value of these types is made: they exist in proofs alone.
use std::collections::LinkedList;

/// What a caller knows. A clause reads a list of these as a plain list, oldest entry first.
pub struct View<E> {
    /// The caller's number.
    pub caller: u64,
    /// The history, as far as the caller has seen it.
    pub seen: LinkedList<E>,
    /// The caller's own entries, in order.
    pub mine: LinkedList<E>,
    /// The callers whose passes were joined into this one.
    pub joined: LinkedList<Joined<E>>,
    /// How many passes were split from this one.
    pub made: u64,
}

/// A caller that has ended, with all its entries.
pub struct Joined<E> {
    /// Its number.
    pub caller: u64,
    /// Its entries, in order.
    pub mine: LinkedList<E>,
}

/// Where a seat is in the queue. A ticket counts from 0 on.
pub enum Stage {
    /// It has no ticket.
    Idle,
    /// It waits with this ticket.
    Waits(u64),
    /// It has the turn, by this ticket.
    Holds(u64),
    /// It was joined into another.
    Spent,
}

/// What a seat at the table knows.
pub struct Doing<E> {
    /// Where it is in the queue.
    pub stage: Stage,
    /// What its caller knows.
    pub view: View<E>,
    /// What a pass that was joined into it had seen.
    pub told: LinkedList<E>,
}
