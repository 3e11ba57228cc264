use nj_formula::Name;
use std::alloc::AllocError;

/// Why a command was refused.
#[derive(Debug, Drop)]
pub enum ProofFault {
    /// The command is not one of the mode, or the proof has ended.
    NotAllowed,
    /// `show`: no pending subgoal of the block fits.
    NoSuchSubgoal,
    /// `qed`: a subgoal of the block is pending.
    SubgoalsRemain,
    /// `fix`: the name is fixed already, or free in what is known or to be shown.
    NotFresh { name: Name },
    NoMemory,
}

impl From<AllocError> for ProofFault {
    ghost use Rattle.std.specs.Prelude.{◌≡◌};
    ghost use Rattle.proof_state.specs.declared.fault.ProofFault.TheVariants.{NoMemory};

    ghost from_gives = { λ _ error. error ≡ NoMemory };

    fn from(_: AllocError) -> ProofFault {
        ProofFault::NoMemory
    }
}
