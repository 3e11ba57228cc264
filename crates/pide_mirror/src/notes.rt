//! All that a mirror noted, for proofs alone.
ghost use Rattle.std.specs.Prelude.{◌≡◌, [], ◌∷◌};

use crate::note::Note;
use http_server::Log;
use std::marker::Model;

/// What was noted, of which nothing is kept: it takes no memory, and proofs alone can read it.
/// Contracts see the list, newest first.
#[derive(Drop)]
pub struct Notes {
    log: Log<Note, ()>,
}

impl Model for Notes {
    ghost use Rattle.std.specs.Prelude.{List, reverse, map};
    ghost use Rattle.pide_mirror.specs.declared.note.Note.{Note};

    ghost Value = { List Note };

    ghost view = { λ l. reverse (map (λ x. x.0) l.log.items) };
}

impl Notes {
    /// Nothing yet.
    pub(crate) fn new() -> Notes
        ensures { result ≡ [] }
    {
        Notes { log: Log::new() }
    }

    /// These, and a note more, which stays its owner's.
    pub(crate) fn with(&self, note: &Note) -> Notes
        ensures { result ≡ note.now ∷ self.now }
    {
        Notes {
            log: self.log.and(note, &()),
        }
    }
}
