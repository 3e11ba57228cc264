//! A count for which callers wait: they look at it for a while, and then park. No contract speaks
//! of it.
use crate::queue::low_half;
use std::hint::spin_loop;
use std::sync::Wait;
use std::sync::atomic::{AtomicU64, Ordering};

/// Where looks are of no use, so many times fewer are taken.
const FEWEST: u64 = 32;

/// How often there was news, and how many callers park until there is more.
#[derive(Drop)]
pub(crate) struct EventCount {
    count: AtomicU64,
    /// How many callers look at it.
    looking: AtomicU64,
    /// How many park. Those who are about to park are counted too.
    parked: AtomicU64,
    /// How many looks a caller takes before it parks.
    looks: AtomicU64,
    /// How many it takes where they are of use.
    most_looks: u64,
}

impl EventCount {
    /// A count at which callers look so often before they park, and less often where that was of
    /// no use.
    pub(crate) fn new(most_looks: u64) -> EventCount {
        EventCount {
            count: AtomicU64::new(0),
            looking: AtomicU64::new(0),
            parked: AtomicU64::new(0),
            looks: AtomicU64::new(most_looks),
            most_looks,
        }
    }

    /// How often there was news.
    pub(crate) fn now(&self) -> u64 {
        self.count.load(Ordering::SeqCst)
    }

    /// Whether the count soon is another than the one that was heard.
    fn changes_soon(&self, heard: u64) -> bool {
        let looks = self.looks.load(Ordering::SeqCst);
        self.looking.fetch_add(1, Ordering::SeqCst);
        let changes = self.is_seen_to_change(heard, looks);
        self.looking.fetch_sub(1, Ordering::SeqCst);
        let next = if changes {
            self.most_looks
        } else {
            (looks / 2).max(self.most_looks / FEWEST)
        };
        self.looks.store(next, Ordering::SeqCst);
        changes
    }

    fn is_seen_to_change(&self, heard: u64, looks: u64) -> bool {
        for _ in 0..looks {
            if self.now() != heard {
                return true;
            }
            spin_loop();
        }
        false
    }

    /// Waits until the count is another than the one that was heard, and tells it. It may also
    /// return for no reason.
    ///
    /// To park is to look once more, after `parked` was raised. Whoever counts news after that look
    /// finds `parked` raised, and wakes; news that was counted before is seen by the look.
    pub(crate) fn wait<R: Wait>(&self, rt: &R, heard: u64) -> u64 {
        if !self.changes_soon(heard) {
            self.parked.fetch_add(1, Ordering::SeqCst);
            self.count.park(rt, low_half(heard));
            self.parked.fetch_sub(1, Ordering::SeqCst);
        }
        self.now()
    }

    /// Counts news for so many, and tells whether anybody hears it: those who look do, and as many
    /// as lack are woken of those who park.
    pub(crate) fn tell(&self, most: u32) -> bool {
        self.count.fetch_add(1, Ordering::SeqCst);
        let looking = self.looking.load(Ordering::SeqCst);
        let most = u64::from(most).saturating_sub(looking);
        let parked = self.parked.load(Ordering::SeqCst);
        if parked > most {
            for _ in 0..most {
                self.count.wake_one();
            }
        } else if parked != 0 {
            self.count.wake_all();
        }
        looking != 0 || parked != 0
    }
}
