//! Examples.
ghost use Rattle.mirror_rules.specs.WorkedForks.{MayFork, ForksBy};

/// Which commands may fork, and which of them do, computed.
pub fn worked_forks()
    ensures may_fork { MayFork }
    ensures forks_by { ForksBy }
{}
