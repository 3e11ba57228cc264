//! Those who wait for a change, by what they do.
use crate::event_count::EventCount;
use crate::news::{News, Role};

/// So many looks take about as long as a turn.
const FEW_LOOKS: u64 = 500;

/// So many looks take about as long as some small parts: where many of these come one after the
/// other, the writer has awoken when the next reply is there.
const MANY_LOOKS: u64 = 50_000;

/// A count of news for callers of each role.
#[derive(Drop)]
pub(crate) struct Listeners {
    reader: EventCount,
    writer: EventCount,
    workers: EventCount,
}

impl Listeners {
    pub(crate) fn new() -> Listeners {
        Listeners {
            reader: EventCount::new(FEW_LOOKS),
            writer: EventCount::new(MANY_LOOKS),
            workers: EventCount::new(FEW_LOOKS),
        }
    }

    /// The count for callers of this role.
    pub(crate) fn of(&self, role: Role) -> &EventCount {
        match role {
            Role::Reader => &self.reader,
            Role::Writer => &self.writer,
            Role::Worker => &self.workers,
        }
    }

    /// Tells those for whom it is news. What no worker hears is told to the reader.
    pub(crate) fn tell(&self, news: News) {
        let News {
            reader,
            writer,
            workers,
        } = news;
        let is_heard = workers == 0 || self.workers.tell(workers);
        if reader || !is_heard {
            self.reader.tell(u32::MAX);
        }
        if writer {
            self.writer.tell(u32::MAX);
        }
    }
}
