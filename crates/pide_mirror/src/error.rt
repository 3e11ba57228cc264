//! Why nothing more is taken.

use mirror_rules::MirrorFault;

/// Why a mirror takes nothing more.
#[derive(Clone, Copy, Debug, PartialEq, Eq)]
pub enum MirrorError {
    /// What was heard is at fault.
    Fault(MirrorFault),
    /// Memory ran out within a piece.
    NoMemory,
}
