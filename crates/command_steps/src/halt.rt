//! How what is tried ends, if not with what comes of it.
use std::alloc::AllocError;

/// How what is tried ends.
#[derive(Debug, Drop)]
pub enum Halt {
    /// The text of the command's error.
    Refused(String),
    NoMemory,
}

impl From<AllocError> for Halt {
    ghost use Rattle.std.specs.Prelude.{◌≡◌};
    ghost use Rattle.command_steps.specs.declared.halt.Halt.TheVariants.{NoMemory};

    ghost from_gives = { λ _ halt. halt ≡ NoMemory };

    fn from(_: AllocError) -> Halt {
        Halt::NoMemory
    }
}
