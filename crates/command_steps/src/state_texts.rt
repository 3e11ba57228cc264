//! The text of a proof state.
ghost use Rattle.std.specs.Prelude.{◌≡◌, IfOk, string_bytes};
ghost use Rattle.isar_rules.specs.Described.{levels_text};

use crate::state_law::one_state_text;
use proof_state::Proof;
use std::alloc::{AllocError, Global};

/// What is to be done in the proof: the open goal, or the block's goal and a line for each pending
/// subgoal; empty after the end. An error says that there was no memory.
pub fn state_text(alloc: Global, proof: &Proof) -> Result<String, AllocError>
    ensures { IfOk result (λ text. string_bytes text ≡ levels_text proof.now) }
{
    one_state_text();
    proof.describe(alloc)
}
