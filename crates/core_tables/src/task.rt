//! Tasks, and how they stand.
ghost use Rattle.std.specs.Prelude.{◌≡◌, false};
ghost use Rattle.core_tables.specs.Changes.{kind_if_ready};

use crate::inputs::Inputs;
use crate::priority::Priority;
use pide_base::{Part, PartKind};

/// A part that is to be worked on.
#[derive(Debug, Drop)]
pub struct Task {
    pub part: Part,
    pub priority: Priority,
    /// The executions whose present parts have to be done before.
    pub inputs: Inputs,
}

/// How the present part of an execution stands.
#[derive(Debug, Drop)]
pub struct Standing {
    pub kind: PartKind,
    pub priority: Priority,
    /// The executions whose parts have to be done before it, and are not.
    pub inputs: Inputs,
    /// Whether somebody has taken it, and is at work on it.
    pub held: bool,
}

impl Standing {
    /// A task that was put in, and that nobody has taken.
    pub(crate) fn waiting(kind: PartKind, priority: Priority, inputs: Inputs) -> Standing
        ensures { result
            ≡ record { kind = kind; priority = priority; inputs = inputs; held = false } }
    {
        Standing {
            kind,
            priority,
            inputs,
            held: false,
        }
    }

    /// Its kind, where it is ready.
    pub(crate) fn ready_kind(&self) -> Option<PartKind>
        ensures { result ≡ kind_if_ready self.now }
    {
        if self.held || !self.inputs.is_empty() {
            None
        } else {
            Some(self.kind)
        }
    }
}
