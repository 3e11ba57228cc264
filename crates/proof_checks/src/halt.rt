ghost use Rattle.std.specs.Prelude.{◌≡◌};

use nj_formula::Name;
use nj_kernel::Rule;
use proof_terms::TermFault;
use std::alloc::AllocError;

/// Why a check ended without a theorem.
#[derive(Drop)]
pub(crate) enum Halt {
    Wrong(TermFault),
    Stopped,
    NoMemory,
}

impl From<AllocError> for Halt {
    ghost use Rattle.std.specs.Prelude.{◌≡◌};
    ghost use Rattle.proof_checks.specs.declared.halt.Halt.TheVariants.{NoMemory};

    ghost from_gives = { λ _ e. e ≡ NoMemory };

    fn from(_error: AllocError) -> Halt {
        Halt::NoMemory
    }
}

/// What is to be shown, or a quoted formula, has not the rule's shape.
pub(crate) fn misfit(rule: Rule) -> Halt
    ensures { result ≡ Halt.Wrong (TermFault.RuleDoesNotFit rule) }
{
    Halt::Wrong(TermFault::RuleDoesNotFit { rule })
}

/// The name is free where the rule forbids it.
pub(crate) fn not_fresh(name: Name) -> Halt
    ensures { result ≡ Halt.Wrong (TermFault.NotFresh name) }
{
    Halt::Wrong(TermFault::NotFresh { name })
}
