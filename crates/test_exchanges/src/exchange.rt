//! An exchange, as its lines tell it.
use std::alloc::{AllocError, Global};

/// How many bytes a sink has room for, where no line tells it.
const ROOM: usize = 65_536;

/// Who holds workers up.
#[derive(Clone, Copy, Debug, PartialEq, Eq)]
pub(crate) enum Hold {
    Nobody,
    /// The worker of this number is held at its first claim until another has gone on.
    AtClaim(u32),
    /// The first worker whose job asks whether to stop is held there until others have come to six
    /// points.
    WhenAsked,
    /// Nobody: the first push waits until a worker has finished a part.
    ForPush,
    /// The first worker that is about to finish a part is held until three replies were pushed; the
    /// second pull waits for it, and the end until it has let the part go.
    UntilRemoved,
}

/// What is sent to the program, by what ends, and what the answer tells.
#[derive(Drop)]
pub(crate) struct Exchange {
    /// Whether a line told the words: only then it is run.
    pub(crate) is_told: bool,
    /// The words of the command line, with spaces between them.
    pub(crate) words: String,
    pub(crate) sent: Vec<u8>,
    /// How many bytes a pull gives at most, for each run.
    pub(crate) pieces: Vec<usize>,
    /// Which pull fails, counted from 1; 0 is none.
    pub(crate) failing_pull: u64,
    /// Which push fails, counted so.
    pub(crate) failing_push: u64,
    /// How many bytes the sink has room for.
    pub(crate) room: usize,
    /// How many bytes may be taken.
    pub(crate) limit: Option<usize>,
    pub(crate) hold: Hold,
    /// Whether the entries of the history are counted.
    pub(crate) counts_entries: bool,
    /// Whether each of them is told.
    pub(crate) tells_history: bool,
    /// Whether failed pulls and pushes are counted.
    pub(crate) counts_faults: bool,
    /// Whether of what is written the length alone is told.
    pub(crate) tells_length: bool,
}

impl Exchange {
    /// An exchange of which nothing is told.
    pub(crate) fn new(alloc: Global) -> Exchange {
        Exchange {
            is_told: false,
            words: String::new(alloc),
            sent: Vec::new(alloc),
            pieces: Vec::new(alloc),
            failing_pull: 0,
            failing_push: 0,
            room: ROOM,
            limit: None,
            hold: Hold::Nobody,
            counts_entries: false,
            tells_history: false,
            counts_faults: false,
            tells_length: false,
        }
    }

    /// The words of the command line are these.
    pub(crate) fn tell_words(&mut self, words: &str) -> Result<(), AllocError> {
        self.is_told = true;
        self.words.clear();
        self.words.push_str(words)
    }

    /// Whether lines are written for the words, and no messages: those of a text that is checked, or
    /// of a document that is made.
    pub(crate) fn writes_lines(&self) -> bool {
        let words = self.words.as_str();
        words == "check" || words.starts_with("gen ")
    }

    /// Whether the words ask to serve.
    pub(crate) fn serves(&self) -> bool {
        self.words.as_str() == "serve"
    }

    /// Whether the words ask for workers beside the reader.
    pub(crate) fn has_workers(&self) -> bool {
        match self.words.as_str().strip_prefix("serve --workers ") {
            Some(count) => count != "0",
            None => false,
        }
    }
}
