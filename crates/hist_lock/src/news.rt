//! For whom an entry is news.

/// What a caller does: what is news for one kind of caller need not be for another.
#[derive(Clone, Copy, Debug, PartialEq, Eq)]
pub enum Role {
    /// The first caller.
    Reader,
    /// The caller that hands out what the others made.
    Writer,
    /// Any other.
    Worker,
}

/// For whom the newest entry is news, as a caller that waits for a change is woken for news alone.
/// It may say too many, and never too few.
#[derive(Clone, Copy, Debug, PartialEq, Eq)]
pub struct News {
    /// Whether it is for the reader.
    pub reader: bool,
    /// Whether it is for the writer.
    pub writer: bool,
    /// For how many workers it is: something is to be done that one of them can do, or the reader
    /// where none of them waits.
    pub workers: u32,
}

impl News {
    /// News for nobody.
    pub(crate) fn for_none() -> News {
        News {
            reader: false,
            writer: false,
            workers: 0,
        }
    }

    /// This and other news.
    pub(crate) fn and(self, other: News) -> News {
        News {
            reader: self.reader || other.reader,
            writer: self.writer || other.writer,
            workers: self.workers.saturating_add(other.workers),
        }
    }

    /// News for every caller.
    pub fn for_all() -> News {
        News {
            reader: true,
            writer: true,
            workers: u32::MAX,
        }
    }
}
