use nj_kernel::Thm;
use proof_terms::TermFault;

/// What a check finds.
#[derive(Debug, Drop)]
pub enum Checked {
    /// A theorem whose conclusion is the goal and whose assumptions all stand in the scope.
    Proved(Thm),
    /// The first fault of the term.
    Wrong(TermFault),
    /// Asked to stop, in this call.
    Stopped,
    NoMemory,
}
