//! Where bytes come from.
ghost use Rattle.std.specs.Prelude.{◌≡◌, ℕ, ◌<◌, ◌≤◌, List, length, Option};
ghost use Rattle.pide_base.specs.Faults.{Rose};

/// What a pull brought.
#[derive(Clone, Copy, Debug, PartialEq, Eq)]
pub enum Pulled {
    /// So many bytes, at least one, stand at the front of the buffer.
    Bytes(usize),
    /// No byte is left.
    End,
    /// The source failed, and its count of faults rose.
    Failed,
}

/// Bytes that are pulled piece by piece.
pub trait Source {
    /// The bytes left, where the source tells them.
    ghost left: { Self → Option (List ℕ) };

    /// How many faults it has had: a number of 64 bits that stands still at its end.
    ghost faults: { Self → ℕ };

    ghost use Rattle.pide_base.specs.Moves.{PulledSo};

    /// Moves bytes to the front of the buffer, which must not be empty.
    fn pull(&mut self, buffer: &mut [u8]) -> Pulled
        requires { 0 < length buffer.old }
        ensures bytes { PulledSo (left self.old) (left self.new) buffer.new result }
        ensures steady { faults self.old ≤ faults self.new }
        ensures cause { result ≡ Pulled.Failed → Rose (faults self.old) (faults self.new) };
}
