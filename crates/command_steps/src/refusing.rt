//! Why commands of proofs are refused.
ghost use Rattle.std.specs.Prelude.{◌++◌, ◌≡◌, Result, Err, IfOk, codes, string_bytes};
ghost use Rattle.proof_state.specs.Answers.{Gives};
ghost use Rattle.proof_state.specs.declared.fault.ProofFault.{ProofFault};
ghost use Rattle.proof_state.specs.declared.levels.Levels.{Levels};
ghost use Rattle.isar_rules.specs.Proofs.{levels_or};
ghost use Rattle.command_steps.specs.Tries.{Tries, Refuses};

use crate::halt::Halt;
use crate::refusals::refusal;
use proof_state::ProofFault;
use std::alloc::{AllocError, Global};

/// Words before and behind a name.
fn around(alloc: Global, before: &str, name: &str, behind: &str) -> Result<String, AllocError>
    ensures { IfOk result (λ text. string_bytes text ≡ before.now ++ name.now ++ behind.now) }
{
    let mut text = String::from_str(alloc, before)?;
    text.push_str(name)?;
    text.push_str(behind)?;
    Ok(text)
}

/// The name is no fresh one.
fn not_fresh(alloc: Global, name: &str) -> Halt
    ensures { Refuses (codes "variable " ++ name.now ++ codes " is not fresh") result }
{
    match around(alloc, "variable ", name, " is not fresh") {
        Ok(text) => Halt::Refused(text),
        Err(_) => Halt::NoMemory,
    }
}

/// Why a proof command is refused.
pub(crate) fn refused(alloc: Global, fault: ProofFault) -> Halt
    ensures { (stepped : Result Levels ProofFault) → Gives stepped (Err fault)
        → Tries (levels_or stepped) (Err result) }
{
    match fault {
        ProofFault::NotAllowed => refusal(alloc, "not allowed here"),
        ProofFault::NoSuchSubgoal => refusal(alloc, "no such subgoal"),
        ProofFault::SubgoalsRemain => refusal(alloc, "subgoals remain"),
        ProofFault::NotFresh { name } => not_fresh(alloc, name.as_str()),
        ProofFault::NoMemory => Halt::NoMemory,
    }
}
