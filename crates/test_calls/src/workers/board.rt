//! A state for the rows: a board of tasks that are claimed in order. Of each that is finished a
//! byte is sent.
ghost use Rattle.std.specs.Prelude.{◌≡◌, ◌++◌, ◌∷◌, [], Some, None, MatchOption, MatchResult, IsTrue, IsFalse};
ghost use Rattle.std.specs.List.{Contains};
ghost use Rattle.worker_loop.specs.declared.said.Said.TheVariants as said;

use hist_lock::{News, State, Turn};
use pide_base::{Flag, Part};
use std::alloc::AllocFailed;
use worker_loop::Said;

/// An entry of the board.
#[derive(Clone, Copy)]
pub(super) struct Mark {
    pub(super) by: u32,
    pub(super) what: Said,
    pub(super) byte: Option<u8>,
}

/// A task that is not claimed yet.
#[derive(Drop)]
pub(super) struct Task {
    pub(super) part: Part,
    pub(super) flag: Flag,
}

#[derive(Drop)]
pub(super) struct Board {
    pub(super) marks: Vec<Mark>,
    /// The last one is claimed first.
    pub(super) open: Vec<Task>,
    pub(super) sent: usize,
}

impl State for Board {
    type Entry = Mark;

    ghost entries = { λ b. b.marks.items };

    ghost whose = { λ m. m.by };

    ghost legal = { λ log. Unit {0} };

    ghost idle = { λ log c. Unit {0} };

    fn count(&self) -> u64 {
        self.marks.len() as u64
    }

    fn news(&self) -> News {
        News::for_all()
    }
}

impl Board {
    // The entry that ends the work, if there is one.
    fn last_word(&self) -> Option<Mark>
        ensures { MatchOption result (Unit {0}) (λ m. Contains self.now.marks.items m) }
    {
        for mark in &self.marks {
            if matches!(mark.what, Said::Ended | Said::Lost) {
                return Some(*mark);
            }
        }
        None
    }

    fn finished(&self) -> usize {
        self.marks
            .iter()
            .filter(|m| matches!(m.what, Said::Finished(_)))
            .count()
    }
}

/// Claims a task.
#[derive(Drop)]
pub(super) struct Take {
    pub(super) by: u32,
}

impl Turn<Board> for Take {
    type Answer = Result<Task, Option<Mark>>;

    ghost asks = { λ c b. Unit {0} };

    ghost gives = { λ c b a d. MatchResult a
        (λ t. d.marks.items ≡ b.marks.items
        ++ record { by = c.by; what = said.Claimed t.part; byte = None } ∷ [])
        (λ s. (d.marks.items ≡ b.marks.items)
        × MatchOption s (Unit {0}) (λ m. Contains d.marks.items m)) };

    fn run(self, board: &mut Board) -> Result<Task, Option<Mark>> {
        if let Some(mark) = board.last_word() {
            return Err(Some(mark));
        }
        if board.marks.reserve(1).is_err() {
            return Err(None);
        }
        let Some(task) = board.open.pop() else {
            return Err(None);
        };
        let mark = Mark {
            by: self.by,
            what: Said::Claimed(task.part),
            byte: None,
        };
        if board.marks.push(mark).is_err() {
            unreachable!();
        }
        Ok(task)
    }
}

/// Adds an entry. For want of memory it comes back.
#[derive(Drop)]
pub(super) struct Add {
    pub(super) mark: Mark,
}

impl Turn<Board> for Add {
    type Answer = Result<(), Mark>;

    ghost asks = { λ c b. Unit {0} };

    ghost gives = { λ c b a d. MatchResult a (λ _. d.marks.items ≡ b.marks.items ++ c.mark ∷ [])
        (λ back. (d.marks.items ≡ b.marks.items) × (back ≡ c.mark)) };

    fn run(self, board: &mut Board) -> Result<(), Mark> {
        let Add { mark } = self;
        match board.marks.push(mark) {
            Ok(()) => Ok(()),
            Err(AllocFailed { value }) => Err(value),
        }
    }
}

/// Takes a byte that is to be sent.
#[derive(Drop)]
pub(super) struct Send {
    pub(super) by: u32,
}

impl Turn<Board> for Send {
    type Answer = Result<u8, Option<Mark>>;

    ghost asks = { λ c b. Unit {0} };

    ghost gives = { λ c b a d. MatchResult a
        (λ x. d.marks.items ≡ b.marks.items
        ++ record { by = c.by; what = said.Sent; byte = Some x } ∷ [])
        (λ s. (d.marks.items ≡ b.marks.items)
        × MatchOption s (Unit {0}) (λ m. Contains d.marks.items m)) };

    fn run(self, board: &mut Board) -> Result<u8, Option<Mark>> {
        if board.sent == board.finished() {
            return Err(board.last_word());
        }
        let byte = b'x';
        let mark = Mark {
            by: self.by,
            what: Said::Sent,
            byte: Some(byte),
        };
        if board.marks.push(mark).is_err() {
            return Err(None);
        }
        board.sent = board.sent.saturating_add(1);
        Ok(byte)
    }
}

/// Looks whether all has ended.
#[derive(Drop)]
pub(super) struct Look;

impl Turn<Board> for Look {
    type Answer = Option<Mark>;

    ghost asks = { λ c b. Unit {0} };

    ghost gives = { λ c b a d. (d.marks.items ≡ b.marks.items)
        × MatchOption a (Unit {0}) (λ m. Contains d.marks.items m) };

    fn run(self, board: &mut Board) -> Option<Mark> {
        board.last_word()
    }
}

/// Ends the work once so many tasks are done.
#[derive(Drop)]
pub(super) struct End {
    pub(super) by: u32,
    pub(super) tasks: usize,
}

impl Turn<Board> for End {
    type Answer = Option<()>;

    ghost asks = { λ c b. Unit {0} };

    ghost gives = { λ c b a d. MatchOption a (d.marks.items ≡ b.marks.items)
        (λ _. d.marks.items ≡ b.marks.items
        ++ record { by = c.by; what = said.Ended; byte = None } ∷ []) };

    fn run(self, board: &mut Board) -> Option<()> {
        let End { by, tasks } = self;
        if board.finished() < tasks {
            return None;
        }
        let mark = Mark {
            by,
            what: Said::Ended,
            byte: None,
        };
        board.marks.push(mark).ok()
    }
}

/// What was made of the tasks.
#[derive(Clone, Copy, PartialEq, Eq)]
pub(super) struct Tally {
    pub(super) claimed: usize,
    pub(super) finished: usize,
    pub(super) dropped: usize,
}

/// Counts the claims, and the tasks that are finished and dropped.
#[derive(Drop)]
pub(super) struct Count;

impl Turn<Board> for Count {
    type Answer = Tally;

    ghost asks = { λ c b. Unit {0} };

    ghost gives = { λ c b a d. d.marks.items ≡ b.marks.items };

    fn run(self, board: &mut Board) -> Tally {
        let marks = &board.marks;
        Tally {
            claimed: marks
                .iter()
                .filter(|m| matches!(m.what, Said::Claimed(_)))
                .count(),
            finished: board.finished(),
            dropped: marks
                .iter()
                .filter(|m| matches!(m.what, Said::Dropped(_)))
                .count(),
        }
    }
}
