//! How many commands keep their ids at the front of a node, and how many at its back.
ghost use Rattle.std.specs.Prelude.{◌≡◌, ◌+◌, ◌-◌, ◌≤◌, length, zip, reverse};
ghost use Rattle.std.specs.List.{take_while};
ghost use Rattle.doc_nodes.specs.Names.{equal};
ghost use Rattle.buffer_rules.specs.Numbers.{kept_runs};

use crate::source::Source;
use std::marker::Model;

/// How many of a node's commands keep their ids: so many at its front, and of the others so many at
/// its back.
#[derive(Debug, Drop)]
pub struct KeptRuns {
    front: usize,
    back: usize,
}

impl Model for KeptRuns {
    ghost use Rattle.buffer_rules.specs.Numbers.{Kept};

    ghost Value = { Kept };

    ghost view = { λ runs. record { front = runs.front; back = runs.back } };
}

impl KeptRuns {
    /// How many at the front.
    pub fn front(&self) -> usize
        ensures { result ≡ self.now.front }
    {
        self.front
    }

    /// How many at the back.
    pub fn back(&self) -> usize
        ensures { result ≡ self.now.back }
    {
        self.back
    }
}

/// How many sources at the front of both lists are equal: pairs before the first that differs.
fn equal_front(before: &[Source], now: &[Source]) -> usize
    ensures value { result ≡ length (take_while (λ pair. equal pair.0 pair.1)
        (zip before.now now.now)) }
    ensures before { result ≤ length before.now }
    ensures now { result ≤ length now.now }
{
    before
        .iter()
        .zip(now)
        .take_while(|(old, new)| old.equals(new))
        .count()
}

/// How many at the back are: the same of the lists turned round.
fn equal_back(before: &[Source], now: &[Source]) -> usize
    ensures value { result ≡ length (take_while (λ pair. equal pair.0 pair.1)
        (zip (reverse before.now) (reverse now.now))) }
    ensures before { result ≤ length before.now }
    ensures now { result ≤ length now.now }
{
    before
        .iter()
        .rev()
        .zip(now.iter().rev())
        .take_while(|(old, new)| old.equals(new))
        .count()
}

/// Which of the commands with these sources, before and now, are the same: the longest front of
/// equal sources, and then the longest back of what is left.
pub fn kept_runs(before: &[Source], now: &[Source]) -> KeptRuns
    ensures value { result ≡ kept_runs before.now now.now }
    ensures before { result.front + result.back ≤ length before.now }
    ensures now { result.front + result.back ≤ length now.now }
{
    let front = equal_front(before, now);
    let back = equal_back(&before[front..], &now[front..]);
    KeptRuns { front, back }
}
