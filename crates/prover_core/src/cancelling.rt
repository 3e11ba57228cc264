//! Cancellation.
ghost use Rattle.std.specs.Prelude.{◌≡◌, false};
ghost use Rattle.core_rules.specs.Standing.{has_ended};
ghost use Rattle.core_rules.specs.Legal.{IsLegal};
ghost use Rattle.prover_core.specs.Answers.{CancelledSo};

use crate::prover::Core;
use crate::table::Table;
use core_rules::{Event, tip_law};
use core_tables::Cancelling;
use language::Language;
use pide_base::ExecId;
use update_plans::Known;

impl<L: Language> Core<L> {
    /// Cancels an execution that has an unfinished part, and asks its jobs to stop. It takes no
    /// memory.
    pub fn cancel(&mut self, exec: ExecId) -> Cancelling
        requires going { has_ended self.old.past ≡ false }
        ensures cancelled { CancelledSo L.lang exec self.old.past result self.new.past }
        ensures legal { IsLegal L.lang self.new.past }
    {
        tip_law::<L>();
        match self.execs.cancel(exec) {
            Cancelling::Unknown => Cancelling::Unknown,
            Cancelling::Idle => {
                self.past.add(Event::Cancel { exec });
                Cancelling::Idle
            }
            Cancelling::Cancelled => {
                ask_to_stop(&self.known, exec);
                self.queue.cancel_group(exec);
                if self.cancelled.push(exec).is_err() {
                    unreachable!()
                }
                self.past.add(Event::Cancel { exec });
                Cancelling::Cancelled
            }
        }
    }
}

/// Asks the jobs of an execution to stop.
pub(crate) fn ask_to_stop(known: &Table<Known>, exec: ExecId) {
    if let Some(one) = known.get(&exec.number()) {
        one.flag.set();
    }
}
