//! A state for the tests: a book of notes, in which each note has the number of its place. A caller
//! is idle while the book has its own notes alone.
ghost use Rattle.std.specs.Prelude.{◌≡◌, ◌<◌, ℕ, ◌++◌, [], ◌∷◌, length, slice_get, Some, MatchOption, IfSome, IsTrue, ◌↔◌};
ghost use Rattle.std.specs.List.{All};

use hist_lock::{News, State, Turn};
use std::alloc::{AllocError, Global};

#[derive(Clone, Copy, PartialEq, Eq)]
pub(super) struct Note {
    pub(super) by: u32,
    pub(super) number: u64,
    pub(super) text: u64,
}

#[derive(Drop)]
pub(super) struct Book {
    pub(super) notes: Vec<Note>,
}

impl State for Book {
    type Entry = Note;

    ghost entries = { λ b. b.notes.items };

    ghost whose = { λ m. m.by };

    ghost legal = { λ log. (k : ℕ) (m : _) → slice_get log k ≡ Some m → m.number ≡ k };

    ghost idle = { λ log c. All (λ m. m.by ≡ c) log };

    fn count(&self) -> u64 {
        self.notes.len() as u64
    }

    fn news(&self) -> News {
        News::for_all()
    }
}

/// Writes a note, and answers its number, or that there is no memory.
#[derive(Drop)]
pub(super) struct Write {
    pub(super) by: u32,
    pub(super) text: u64,
}

impl Turn<Book> for Write {
    type Answer = Option<u64>;

    ghost asks = { λ c b. Unit {0} };

    ghost gives = { λ c b n d. MatchOption n (d.notes.items ≡ b.notes.items)
        (λ n. d.notes.items
        ≡ b.notes.items ++ record { by = c.by; number = n; text = c.text } ∷ []) };

    fn run(self, book: &mut Book) -> Option<u64> {
        let Write { by, text } = self;
        let number = book.notes.len() as u64;
        book.notes.push(Note { by, number, text }).ok()?;
        Some(number)
    }
}

/// Reads all notes. It adds none.
#[derive(Drop)]
pub(super) struct Read {
    pub(super) alloc: Global,
}

impl Turn<Book> for Read {
    type Answer = Result<Vec<Note>, AllocError>;

    ghost asks = { λ c b. Unit {0} };

    ghost gives = { λ c b a d. d.notes.items ≡ b.notes.items };

    fn run(self, book: &mut Book) -> Result<Vec<Note>, AllocError> {
        book.notes.as_slice().to_vec(self.alloc)
    }
}

/// Asks whether the book has one caller's notes alone.
#[derive(Drop)]
pub(super) struct IsAlone {
    pub(super) by: u32,
}

impl Turn<Book> for IsAlone {
    type Answer = bool;

    ghost asks = { λ c b. Unit {0} };

    ghost gives = { λ c b a d. (d.notes.items ≡ b.notes.items)
        × (IsTrue a → All (λ m. m.by ≡ c.by) b.notes.items) };

    fn run(self, book: &mut Book) -> bool {
        let by = self.by;
        book.notes.iter().all(|m| m.by == by)
    }
}
