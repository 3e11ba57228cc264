//! Gates at which workers are held.
use pide_base::{Gate, Point};
use std::sync::atomic::{AtomicBool, AtomicU64, Ordering};
use std::thread;

/// How many points another worker comes to while the first is held.
const POINTS: u64 = 6;

/// Holds the first worker whose job asks whether to stop, until others have come to six points
/// after that, and for so many looks at the most.
#[derive(Drop)]
pub(crate) struct SixPoints {
    looks: u64,
    /// The worker that is held, one more than its number: 0 where there was none.
    held: AtomicU64,
    /// The points that others have come to since.
    points: AtomicU64,
    by_limit: AtomicBool,
}

impl SixPoints {
    /// A gate whose hold ends after so many looks.
    pub(crate) fn new(looks: u64) -> SixPoints {
        SixPoints {
            looks,
            held: AtomicU64::new(0),
            points: AtomicU64::new(0),
            by_limit: AtomicBool::new(false),
        }
    }

    /// How the hold ended, as a word.
    pub(crate) fn let_go(&self) -> &'static str {
        if self.by_limit.load(Ordering::SeqCst) {
            return "ByLimit";
        }
        if self.held.load(Ordering::SeqCst) == 0 {
            return "NotHeld";
        }
        "ByOther"
    }

    fn hold(&self) {
        for _ in 0..self.looks {
            if self.points.load(Ordering::SeqCst) >= POINTS {
                return;
            }
            thread::yield_now();
        }
        self.by_limit.store(true, Ordering::SeqCst);
    }

    /// Whether this worker is the first.
    fn is_first(&self, me: u64) -> bool {
        self.held
            .compare_exchange(0, me, Ordering::SeqCst, Ordering::SeqCst)
            .is_ok()
    }
}

impl Gate for SixPoints {
    fn at(&self, worker: u32, point: Point) {
        let me = u64::from(worker) + 1;
        let held = self.held.load(Ordering::SeqCst);
        if held != 0 && held != me {
            self.points.fetch_add(1, Ordering::SeqCst);
        }
        if matches!(point, Point::Asked(_)) && self.is_first(me) {
            self.hold();
        }
    }
}

/// Tells whether a worker has finished a part: it has come to another point after it was about to.
#[derive(Drop)]
pub(crate) struct Progress {
    /// The workers that were about to, a bit each.
    about_to_finish: AtomicU64,
    finished: AtomicBool,
}

impl Progress {
    /// Nobody has finished a part.
    pub(crate) fn new() -> Progress {
        Progress {
            about_to_finish: AtomicU64::new(0),
            finished: AtomicBool::new(false),
        }
    }

    /// Waits until a worker has finished a part, for so many looks at the most: whether one has.
    pub(crate) fn wait(&self, looks: u64) -> bool {
        for _ in 0..looks {
            if self.finished.load(Ordering::SeqCst) {
                return true;
            }
            thread::yield_now();
        }
        false
    }
}

impl Gate for Progress {
    fn at(&self, worker: u32, point: Point) {
        let me = 1u64.checked_shl(worker).unwrap_or(0);
        if self.about_to_finish.load(Ordering::SeqCst) & me != 0 {
            self.finished.store(true, Ordering::SeqCst);
        }
        if matches!(point, Point::BeforeFinish(_)) {
            self.about_to_finish.fetch_or(me, Ordering::SeqCst);
        }
    }
}
