//! A worker that is held until what it works on isn't wanted any more.
use pide_base::{Gate, Point, Pulled, Pushed, Sink, Source};
use pide_io::{MemSink, MemSource};
use std::sync::atomic::{AtomicBool, AtomicU64, Ordering};
use std::thread;

/// How many replies there are once the version is removed.
const REMOVED: u64 = 3;

/// How many there are once the part is let go.
const LET_GO: u64 = 4;

/// Holds the first worker that is about to finish a part until so many replies were pushed, for so
/// many looks at the most.
#[derive(Drop)]
pub(crate) struct Removal {
    looks: u64,
    is_held: AtomicBool,
    pushes: AtomicU64,
    by_limit: AtomicBool,
}

impl Removal {
    /// Nobody is held yet.
    pub(crate) fn new(looks: u64) -> Removal {
        Removal {
            looks,
            is_held: AtomicBool::new(false),
            pushes: AtomicU64::new(0),
            by_limit: AtomicBool::new(false),
        }
    }

    /// How the hold ended, as a word.
    pub(crate) fn let_go(&self) -> &'static str {
        if self.by_limit.load(Ordering::SeqCst) {
            return "ByLimit";
        }
        if self.is_held.load(Ordering::SeqCst) {
            return "ByOther";
        }
        "NotHeld"
    }

    fn wait_for_hold(&self) {
        for _ in 0..self.looks {
            if self.is_held.load(Ordering::SeqCst) {
                return;
            }
            thread::yield_now();
        }
        self.by_limit.store(true, Ordering::SeqCst);
    }

    fn wait_for_pushes(&self, count: u64) {
        for _ in 0..self.looks {
            if self.pushes.load(Ordering::SeqCst) >= count {
                return;
            }
            thread::yield_now();
        }
        self.by_limit.store(true, Ordering::SeqCst);
    }
}

impl Gate for Removal {
    fn at(&self, _worker: u32, point: Point) {
        let is_done = matches!(point, Point::BeforeFinish(_));
        if is_done && !self.is_held.swap(true, Ordering::SeqCst) {
            self.wait_for_pushes(REMOVED);
        }
    }
}

/// A source whose second pull waits until a worker is held, and whose end waits until that worker
/// has let its part go.
#[derive(Drop)]
pub(crate) struct HeldSource<'a> {
    pub(crate) source: MemSource,
    pub(crate) removal: &'a Removal,
    pub(crate) pulls: u64,
}

impl<'a> Source for HeldSource<'a> {
    ghost use Rattle.std.specs.Prelude.{Some};

    ghost left = { λ s. Some s.source.left };

    ghost faults = { λ s. s.source.faults };

    fn pull(&mut self, buffer: &mut [u8]) -> Pulled {
        self.pulls = self.pulls.saturating_add(1);
        if self.pulls == 2 {
            self.removal.wait_for_hold();
        }
        let pulled = self.source.pull(buffer);
        if matches!(pulled, Pulled::End) {
            self.removal.wait_for_pushes(LET_GO);
        }
        pulled
    }
}

/// A sink that counts what is pushed.
#[derive(Drop)]
pub(crate) struct CountingSink<'a> {
    pub(crate) sink: MemSink,
    pub(crate) removal: &'a Removal,
}

impl<'a> Sink for CountingSink<'a> {
    ghost use Rattle.std.specs.Prelude.{Some};

    ghost contents = { λ k. Some k.sink.contents };

    ghost faults = { λ k. k.sink.faults };

    fn push(&mut self, piece: &[u8]) -> Pushed {
        let pushed = self.sink.push(piece);
        self.removal.pushes.fetch_add(1, Ordering::SeqCst);
        pushed
    }
}
