//! Where bytes go.
ghost use Rattle.std.specs.Prelude.{◌≡◌, ℕ, ◌<◌, ◌≤◌, List, length, Option};
ghost use Rattle.pide_base.specs.Faults.{Rose};

/// What a push did.
#[derive(Clone, Copy, Debug, PartialEq, Eq)]
pub enum Pushed {
    /// The sink took so many of the piece's first bytes, at least one.
    Took(usize),
    /// The sink took nothing, and its count of faults rose.
    Failed,
}

/// Takes bytes piece by piece.
pub trait Sink {
    /// All bytes taken so far, where the sink tells them.
    ghost contents: { Self → Option (List ℕ) };

    /// How many faults it has had: a number of 64 bits that stands still at its end.
    ghost faults: { Self → ℕ };

    ghost use Rattle.pide_base.specs.Moves.{PushedSo};

    /// Appends a front of the piece, which must not be empty.
    fn push(&mut self, piece: &[u8]) -> Pushed
        requires { 0 < length piece.now }
        ensures bytes { PushedSo (contents self.old) (contents self.new) piece.now result }
        ensures steady { faults self.old ≤ faults self.new }
        ensures cause { result ≡ Pushed.Failed → Rose (faults self.old) (faults self.new) };
}
