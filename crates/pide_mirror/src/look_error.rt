//! Why nothing is answered of a node.
ghost use Rattle.std.specs.Prelude.{◌≡◌};

use message_values::Refusal;
use mirror_rules::MirrorFault;
use std::alloc::AllocError;

/// Why nothing is answered of a node. Nothing has changed then.
#[derive(Clone, Copy, Debug, PartialEq, Eq)]
pub enum LookError {
    /// What was heard is at fault, so that nothing is known any more.
    Fault(MirrorFault),
    /// The version isn't live, it doesn't have the node, or the node's text doesn't take the edits.
    Refused(Refusal),
    /// Memory ran out.
    NoMemory,
}

impl From<AllocError> for LookError {
    ghost use Rattle.pide_mirror.specs.declared.look_error.LookError.{LookError};

    ghost from_gives = { λ _ error. error ≡ LookError.NoMemory };

    fn from(_: AllocError) -> LookError {
        LookError::NoMemory
    }
}
