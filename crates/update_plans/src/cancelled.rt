//! What is cancelled, by a table of executions.
ghost use Rattle.std.specs.Prelude.{◌≡◌};
ghost use Rattle.update_plans.specs.Cancelled.{is_cancelled};

use core_tables::Execs;
use exec_assign::Cancelled;
use pide_base::ExecId;

/// The executions that are cancelled in a table: one that the table has not is not.
#[derive(Drop)]
pub struct CancelledOf<'a, R> {
    execs: &'a Execs<R>,
}

impl<'a, R> CancelledOf<'a, R> {
    /// Those of the table.
    pub fn of(execs: &'a Execs<R>) -> CancelledOf<'a, R>
        ensures { result.execs.now ≡ execs.now }
    {
        CancelledOf { execs }
    }
}

impl<'a, R> Cancelled for CancelledOf<'a, R> {
    ghost use Rattle.update_plans.specs.Cancelled.{cancelled_in};

    ghost cancelled = { λ of. cancelled_in of.execs.now.rows };

    fn is_cancelled(&self, execution: ExecId) -> bool {
        is_cancelled(self.execs, execution)
    }
}

/// Whether the execution is cancelled in the table.
pub(crate) fn is_cancelled<R>(execs: &Execs<R>, exec: ExecId) -> bool
    ensures { result ≡ is_cancelled execs.now.rows exec }
{
    match execs.get(exec) {
        Some(one) => one.cancelled,
        None => false,
    }
}
