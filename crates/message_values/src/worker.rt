//! Workers. A contract sees one as its number.
ghost use Rattle.std.specs.Prelude.{◌≡◌};
ghost use Rattle.std.specs.Option.{SomeIff};
ghost use Rattle.message_values.specs.Workers.{IsWorker};

use std::marker::Model;

/// The most workers that there are.
pub const MOST_WORKERS: u32 = 16;

/// A worker that a message names: one of the numbers 1 to 16.
#[derive(Clone, Copy, Debug, PartialEq, Eq, PartialOrd, Ord, Hash)]
pub struct Worker {
    number: u64,
}

impl Model for Worker {
    ghost use Rattle.std.specs.Prelude.{ℕ};
    ghost use Rattle.message_values.specs.Workers.{IsWorker};

    ghost Value = { ℕ };

    ghost view = { λ worker. worker.number };

    ghost invariant = { λ worker. IsWorker worker.number };

    ghost inverse = { λ n. record { number = n } };
}

impl Worker {
    /// The worker of this number, or None where it is not 1 to 16.
    pub fn new(number: u64) -> Option<Worker>
        ensures { SomeIff result (IsWorker number) number }
    {
        if number < 1 || u64::from(MOST_WORKERS) < number {
            return None;
        }
        Some(Worker { number })
    }

    /// Its number.
    pub fn number(self) -> u64
        ensures value { result ≡ self }
        ensures range { IsWorker result }
    {
        self.number
    }
}
