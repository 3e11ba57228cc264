//! The parts that a version assigns in a node.
use pide_base::{ExecId, Range};
use report_markup::Report;

/// A part of an execution that a version assigns to a command.
#[derive(Clone, Copy)]
pub struct AssignedPart<'a> {
    /// The part's execution.
    pub exec: ExecId,
    /// Where the command's span stands in the version's text, in scalars.
    pub span: Range,
    /// What the part reports of the command's source, where it is finished.
    pub reports: Option<&'a [Report]>,
}
