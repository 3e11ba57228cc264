ghost use Rattle.std.specs.Prelude.{◌≡◌};

use crate::rule::Rule;
use std::alloc::AllocError;

/// A premise that does not fit the rule.
#[derive(Clone, Copy, Debug, PartialEq, Eq)]
pub struct RuleFault {
    pub rule: Rule,
    /// The first premise that does not fit, from 1.
    pub premise: usize,
}

/// Why a rule made no theorem.
#[derive(Clone, Copy, Debug, PartialEq, Eq)]
pub enum RuleError {
    Fault(RuleFault),
    NoMemory,
}

impl From<AllocError> for RuleError {
    ghost use Rattle.std.specs.Prelude.{◌≡◌};
    ghost use Rattle.nj_kernel.specs.declared.fault.RuleError.TheVariants.{NoMemory};

    ghost from_gives = { λ _ e. e ≡ NoMemory };

    fn from(_error: AllocError) -> RuleError {
        RuleError::NoMemory
    }
}

/// The error of a rule whose premise does not fit.
pub(crate) fn misfit(rule: Rule, premise: usize) -> RuleError
    ensures { result ≡ RuleError.Fault (record { rule = rule; premise = premise }) }
{
    RuleError::Fault(RuleFault { rule, premise })
}
