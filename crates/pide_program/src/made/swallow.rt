//! The sink of the replies, which nobody reads.
ghost use Rattle.std.specs.Prelude.{◌≡◌, ◌<◌, ◌≤◌, length, None};
ghost use Rattle.pide_base.specs.Faults.{Rose};
ghost use Rattle.pide_base.specs.Moves.{PushedSo};

use pide_base::{Pushed, Sink};

/// A sink that takes all, and tells nothing of it.
#[derive(Drop)]
pub(crate) struct Swallow {}

impl Sink for Swallow {
    ghost contents = { λ k. None };

    ghost faults = { λ k. 0 };

    fn push(&mut self, piece: &[u8]) -> Pushed
        requires { 0 < length piece.now }
        ensures bytes { PushedSo None None piece.now result }
        ensures steady { 0 ≤ 0 }
        ensures cause { result ≡ Pushed.Failed → Rose 0 0 }
    {
        Pushed::Took(piece.len())
    }
}
