//! A gate that holds workers until others have come further.
use pide_base::{Gate, Point};
use std::sync::atomic::{AtomicBool, Ordering};
use std::{array, thread};

/// How many workers a gate knows: 0 to 16. Others pass at once.
const WORKERS: usize = 17;

/// How far a worker has come.
#[derive(Drop)]
struct Seat {
    /// It has claimed a part.
    claimed: AtomicBool,
    /// It has been about to hand in a part.
    about_to_finish: AtomicBool,
    /// It has come to a point after that.
    beyond: AtomicBool,
}

/// How the hold of a gate's worker ended.
#[derive(Clone, Copy, Debug, PartialEq, Eq)]
pub enum LetGo {
    /// It has come to no claim, or it is held still.
    NotHeld,
    /// It was held for as many looks as the gate allows.
    ByLimit,
    /// Another worker had come further before.
    ByOther,
}

/// Holds each worker at its first claim: the worker that it is made for, and worker 0, until
/// another worker has come to a point after it was first about to hand in a part; each other worker
/// until the one that it is made for has claimed. A hold ends after so many looks at the latest.
#[derive(Drop)]
pub struct HoldGate {
    worker: u32,
    looks: u64,
    seats: [Seat; WORKERS],
    by_limit: AtomicBool,
    by_other: AtomicBool,
}

impl HoldGate {
    /// A gate made for the worker of this number, whose holds end after so many looks.
    pub fn new(worker: u32, looks: u64) -> HoldGate {
        HoldGate {
            worker,
            looks,
            seats: array::from_fn(|_| Seat {
                claimed: AtomicBool::new(false),
                about_to_finish: AtomicBool::new(false),
                beyond: AtomicBool::new(false),
            }),
            by_limit: AtomicBool::new(false),
            by_other: AtomicBool::new(false),
        }
    }

    /// How the hold of the gate's worker ended.
    pub fn let_go(&self) -> LetGo {
        if self.by_limit.load(Ordering::SeqCst) {
            return LetGo::ByLimit;
        }
        if self.by_other.load(Ordering::SeqCst) {
            return LetGo::ByOther;
        }
        LetGo::NotHeld
    }

    fn another_is_beyond(&self, worker: u32) -> bool {
        for (number, seat) in self.seats.iter().enumerate() {
            if number != worker as usize && seat.beyond.load(Ordering::SeqCst) {
                return true;
            }
        }
        false
    }

    fn has_claimed(&self) -> bool {
        match self.seats.get(self.worker as usize) {
            Some(seat) => seat.claimed.load(Ordering::SeqCst),
            None => true,
        }
    }

    fn may_go(&self, worker: u32) -> bool {
        if worker == 0 || worker == self.worker {
            return self.another_is_beyond(worker);
        }
        self.has_claimed()
    }

    // Whether the worker may go before the looks are used up.
    fn hold(&self, worker: u32) -> bool {
        for _ in 0..self.looks {
            if self.may_go(worker) {
                return true;
            }
            thread::yield_now();
        }
        false
    }

    fn hold_and_note(&self, worker: u32) {
        let by_other = self.hold(worker);
        if worker != self.worker {
            return;
        }
        let ended = if by_other {
            &self.by_other
        } else {
            &self.by_limit
        };
        ended.store(true, Ordering::SeqCst);
    }
}

impl Gate for HoldGate {
    fn at(&self, worker: u32, point: Point) {
        let Some(seat) = self.seats.get(worker as usize) else {
            return;
        };
        if seat.about_to_finish.load(Ordering::SeqCst) {
            seat.beyond.store(true, Ordering::SeqCst);
        }
        match point {
            Point::Claimed(_) => {
                if !seat.claimed.swap(true, Ordering::SeqCst) {
                    self.hold_and_note(worker);
                }
            }
            Point::Asked(_) => {}
            Point::BeforeFinish(_) => seat.about_to_finish.store(true, Ordering::SeqCst),
        }
    }
}
