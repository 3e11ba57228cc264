//! How soon a task is taken.
ghost use Rattle.std.specs.Prelude.{◌≡◌};
ghost use Rattle.core_tables.specs.Order.{height};

/// The priority of a task, the lowest first.
#[derive(Clone, Copy, Debug, PartialEq, Eq)]
pub enum Priority {
    /// Of a fork.
    Fork,
    /// Of a print.
    Print,
    /// Of an evaluation whose command is not visible in the tip.
    Eval,
    /// Of an evaluation whose command is visible in the tip.
    VisibleEval,
}

impl Priority {
    /// How high it is, from 0.
    pub(crate) fn height(self) -> u8
        ensures { result ≡ height self }
    {
        match self {
            Priority::Fork => 0,
            Priority::Print => 1,
            Priority::Eval => 2,
            Priority::VisibleEval => 3,
        }
    }
}
