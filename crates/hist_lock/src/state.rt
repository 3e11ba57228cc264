//! What the lock asks of a state and of a call.
ghost use Rattle.std.specs.Prelude.{◌≡◌, ℕ, List, length};
ghost use Rattle.hist_lock.specs.Entries.{Grows};

use crate::news::News;

/// A state that stands for a list of entries.
pub trait State {
    /// What the list is made of.
    type Entry;

    /// The list that a state stands for, oldest entry first.
    ghost entries: { Self → List Self.Entry };

    /// The number of the caller whose entry it is.
    ghost whose: { Self.Entry → ℕ };

    /// Which lists are legal.
    ghost legal: { List Self.Entry → Type 0 };

    /// Where a caller that has seen a list has nothing to do before another entry comes.
    ghost idle: { List Self.Entry → ℕ → Type 0 };

    /// How many entries the list has.
    fn count(&self) -> u64
        ensures { result ≡ length (entries self.now) };

    /// For whom the newest entry is news. A caller that waits for a change may be left waiting by an
    /// entry that isn't news for it.
    fn news(&self) -> News;
}

/// A call on a state. It adds one entry at most; one that only looks adds none.
pub trait Turn<S: State> {
    /// What the call tells its caller.
    type Answer;

    /// What the call asks of the state that it finds.
    ghost asks: { Self → S → Type 0 };

    /// The answer that it may give on a state, and the state that it then leaves.
    ghost gives: { Self → S → Self.Answer → S → Type 0 };

    /// Makes the call on the state, which stands for a legal list before and after it.
    fn run(self, state: &mut S) -> Self::Answer
        requires asks { asks self state.old }
        requires legal { S.legal (S.entries state.old) }
        ensures gives { gives self state.old result state.new }
        ensures adds { Grows (S.entries state.old) (S.entries state.new) }
        ensures legal { S.legal (S.entries state.new) };
}
