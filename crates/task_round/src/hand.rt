//! What the callers of a deque know of its tasks.
use crossbeam_deque::protocol::{Join, Outcome, Protocol, Split};
use crossbeam_deque::{Pass, Stealer, Worker};
use std::alloc::Global;
use std::collections::LinkedList;

/// What a caller knows. No value of it is made: it exists in proofs alone.
pub struct Hand {
    /// Its parts of the right to know what became of all tasks.
    pub parts: u64,
    /// How many tasks there are.
    pub count: usize,
    /// The tasks that it has taken, the first of them first.
    pub taken: LinkedList<usize>,
}

/// The rule: each task is in the deque, or one caller has taken it.
pub(crate) struct EachOnce;

impl Protocol<usize, Hand> for EachOnce {
    ghost use Rattle.std.specs.Prelude.{[]};
    ghost use Rattle.task_round.specs.Sharing.{AreShared, all_parts, hand};

    ghost holds = { AreShared };

    ghost first = { hand all_parts 0 [] };

    ghost guest = { hand 0 0 [] };
}

/// The next task is put into the deque.
pub(crate) struct Puts;

impl Outcome<usize, Hand> for Puts {
    ghost use Rattle.std.specs.Prelude.{◌≡◌, ◌+◌};
    ghost use Rattle.task_round.specs.Sharing.{hand};

    ghost then = { λ v tasks w. w ≡ hand v.parts (v.count + 1) v.taken };
}

/// A task is taken, or there is none.
pub(crate) struct Takes;

impl Outcome<usize, Hand> for Takes {
    ghost use Rattle.std.specs.Prelude.{◌≡◌};
    ghost use Rattle.task_round.specs.Sharing.{TakesSo, all_parts};
    ghost use Rattle.task_round.specs.Rounds.{AreAll};

    ghost then = { TakesSo };

    ghost empty = { λ v. v.parts ≡ all_parts → AreAll v.count v.taken };
}

/// A thief is given one part, and gives it back with what it has taken.
pub(crate) struct Shares;

impl Split<Hand> for Shares {
    ghost use Rattle.std.specs.Prelude.{◌-◌, []};
    ghost use Rattle.task_round.specs.Sharing.{hand};

    ghost left = { λ v. hand (v.parts - 1) v.count v.taken };

    ghost right = { λ v. hand 1 v.count [] };
}

impl Join<Hand> for Shares {
    ghost use Rattle.std.specs.Prelude.{[]};
    ghost use Rattle.task_round.specs.Sharing.{hand, joined};

    ghost both = { joined };

    ghost spent = { hand 0 0 [] };
}

/// A deque of tasks, in the hands of its owner.
pub(crate) type Owner = Worker<usize, Global, Hand, EachOnce>;

/// Its front, where thieves take tasks.
pub(crate) type Front = Stealer<usize, Global, Hand, EachOnce>;

/// What a thief knows.
pub(crate) type Share = Pass<usize, Hand>;
