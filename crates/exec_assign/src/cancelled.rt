//! What is cancelled.
ghost use Rattle.std.specs.Prelude.{◌≡◌};
ghost use Rattle.text_words.specs.Members.{has};

use pide_base::ExecId;

/// Whoever can tell which executions are cancelled.
pub trait Cancelled {
    ghost use Rattle.std.specs.Prelude.{ℕ, List};

    /// The numbers of those that are.
    ghost cancelled: { Self → List ℕ };

    fn is_cancelled(&self, execution: ExecId) -> bool
        ensures { result ≡ has (cancelled self.now) execution };
}
