//! Who may ask that a job stops.
ghost use Rattle.std.specs.Prelude.{◌≡◌, ℕ};
ghost use Rattle.pide_base.specs.Faults.{CountsYes, risen};

/// Tells a running job whether it is asked to stop.
pub trait Stop {
    /// How often it has answered yes: a number of 64 bits that stands still at its end.
    ghost yeses: { Self → ℕ };

    /// How often it was asked: such a number too.
    ghost questions: { Self → ℕ };

    /// Whether to stop now.
    fn asked(&mut self) -> bool
        ensures yeses { CountsYes (yeses self.old) (yeses self.new) result }
        ensures questions { questions self.new ≡ risen (questions self.old) };
}
