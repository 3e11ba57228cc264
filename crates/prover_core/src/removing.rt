//! Removed versions.
ghost use Rattle.std.specs.Prelude.{◌≡◌, false, IfOk, OnErr};
ghost use Rattle.core_tables.specs.Removal.{removing};
ghost use Rattle.core_rules.specs.Standing.{has_ended};
ghost use Rattle.core_rules.specs.Doc.{doc};
ghost use Rattle.core_rules.specs.Legal.{IsLegal};
ghost use Rattle.prover_core.specs.Removal.{with_removal};

use crate::forgetting::forget_all;
use crate::prover::Core;
use core_rules::Event;
use core_tables::Removing;
use language::Language;
use pide_base::VersionId;
use sqlite_items::Items;
use std::alloc::AllocError;
use version_losses::Leaving;

impl<L: Language> Core<L> {
    /// Removes live versions, of which none is the tip; else none goes, and the answer says why.
    /// Executions that no other live version assigns are forgotten, with what came of them, and
    /// their jobs are asked to stop. For want of memory nothing has changed.
    pub fn remove(&mut self, versions: Items<VersionId>) -> Result<Removing, AllocError>
        requires going { has_ended self.old.past ≡ false }
        ensures answer { IfOk result (λ answer. answer
            ≡ removing (doc L.lang self.old.past).live versions) }
        ensures past { IfOk result (λ answer. self.new.past
            ≡ with_removal versions answer self.old.past) }
        ensures err { OnErr result (self.new ≡ self.old) }
        ensures legal { IsLegal L.lang self.new.past }
    {
        let ids = versions.as_slice();
        let leaving = self.losses.leaving(self.alloc, ids)?;
        match self.versions.remove(ids) {
            Removing::Unknown(id) => {
                drop(leaving);
                Ok(Removing::Unknown(id))
            }
            Removing::Tip => {
                drop(leaving);
                Ok(Removing::Tip)
            }
            Removing::Removed => {
                let Leaving { losses, gone } = leaving;
                self.losses = losses;
                self.execs.forget(&gone);
                forget_all(&mut self.known, &gone);
                self.past.add(Event::Remove { versions });
                Ok(Removing::Removed)
            }
        }
    }
}
