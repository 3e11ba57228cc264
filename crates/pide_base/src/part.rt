//! The parts of an execution, each of which is claimed and finished by itself.
use crate::ids::ExecId;

/// What a part does: an evaluation has `Eval` and, where its command forks, `Fork`; a print has
/// `Print`.
#[derive(Clone, Copy, Debug, PartialEq, Eq, PartialOrd, Ord, Hash)]
pub enum PartKind {
    /// The command is run.
    Eval,
    /// What the command left to be checked beside the commands after it.
    Fork,
    /// What a print function shows of the command's state.
    Print,
}

/// One part of an execution.
#[derive(Clone, Copy, Debug, PartialEq, Eq, PartialOrd, Ord, Hash)]
pub struct Part {
    /// The execution that it is a part of.
    pub exec: ExecId,
    /// Which part of it.
    pub kind: PartKind,
}
