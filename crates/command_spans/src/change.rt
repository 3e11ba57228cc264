//! Where an edit changes a text, in numbers.

ghost use Rattle.std.specs.Prelude.{◌≡◌, ◌≤◌, ◌<◌, ◌^◌};
ghost use Rattle.command_spans.specs.Reparsing.{start_of, old_end_of, new_end_of, moved};
ghost use Rattle.command_spans.specs.Keeping.{moved_token};

use outer_syntax::Token;
use pide_base::Range;
use text_edits::Edit;

/// Where an edit begins, and where it ends in the text before it and in the text after it.
#[derive(Clone, Copy, Debug, PartialEq, Eq)]
pub(crate) struct Change {
    pub(crate) start: usize,
    pub(crate) old_end: usize,
    pub(crate) new_end: usize,
}

impl Change {
    /// The numbers of the edit.
    pub(crate) fn of(edit: &Edit) -> Change
        requires old_end { old_end_of edit.now < 2 ^ 64 }
        requires new_end { new_end_of edit.now < 2 ^ 64 }
        ensures start { result.start ≡ start_of edit.now }
        ensures old_end { result.old_end ≡ old_end_of edit.now }
        ensures new_end { result.new_end ≡ new_end_of edit.now }
    {
        match edit {
            Edit::Insert { start, text } => Change {
                start: *start,
                old_end: *start,
                new_end: *start + text.len(),
            },
            Edit::Remove { start, text } => Change {
                start: *start,
                old_end: *start + text.len(),
                new_end: *start,
            },
        }
    }

    /// An old place at or past the old end, moved.
    fn moved(self, place: usize) -> usize
        requires behind { self.old_end ≤ place }
        requires small { moved self.old_end self.new_end place < 2 ^ 64 }
        ensures { result ≡ moved self.old_end self.new_end place }
    {
        place - self.old_end + self.new_end
    }

    /// An old token at or past the old end, moved.
    pub(crate) fn moved_token(self, token: Token) -> Token
        requires start { self.old_end ≤ token.range.start }
        requires stop { self.old_end ≤ token.range.stop }
        requires small_start { moved self.old_end self.new_end token.range.start < 2 ^ 64 }
        requires small_stop { moved self.old_end self.new_end token.range.stop < 2 ^ 64 }
        ensures { result ≡ moved_token self.old_end self.new_end token }
    {
        Token {
            kind: token.kind,
            range: Range {
                start: self.moved(token.range.start),
                stop: self.moved(token.range.stop),
            },
        }
    }
}
