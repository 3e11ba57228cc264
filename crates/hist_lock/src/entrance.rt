//! Where callers come in, one at a time. No contract speaks of it.
use std::hint::spin_loop;
use std::sync::Wait;
use std::sync::atomic::{AtomicU64, Ordering};

/// So many looks are taken before a caller parks: they take longer than nearly every turn, and a
/// wake costs the caller inside more than a turn does.
const LOOKS: u32 = 5_000;

/// Nobody is inside.
const FREE: u64 = 0;

/// A caller is inside.
const TAKEN: u64 = 1;

/// A caller is inside, and others may park.
const AWAITED: u64 = 2;

/// Lets one caller in at a time, in no order: who leaves may come in again before one that parks
/// has awoken. So nobody waits for a caller that sleeps. The lock rests on its tickets alone, and
/// not on this.
#[derive(Drop)]
pub(crate) struct Entrance {
    word: AtomicU64,
}

impl Entrance {
    pub(crate) fn new() -> Entrance {
        Entrance {
            word: AtomicU64::new(FREE),
        }
    }

    fn enters(&self) -> bool {
        self.word
            .compare_exchange(FREE, TAKEN, Ordering::SeqCst, Ordering::SeqCst)
            .is_ok()
    }

    fn enters_soon(&self) -> bool {
        for _ in 0..LOOKS {
            if self.word.load(Ordering::SeqCst) == FREE && self.enters() {
                return true;
            }
            spin_loop();
        }
        false
    }

    /// Comes in, once nobody is inside.
    pub(crate) fn enter<R: Wait>(&self, rt: &R) {
        if self.enters_soon() {
            return;
        }
        for _ in rt.forever() {
            if self.word.swap(AWAITED, Ordering::SeqCst) == FREE {
                return;
            }
            self.word.park(rt, AWAITED as u32);
        }
    }

    /// Goes out again, and wakes one of those who park.
    pub(crate) fn leave(&self) {
        if self.word.swap(FREE, Ordering::SeqCst) == AWAITED {
            self.word.wake_one();
        }
    }
}
