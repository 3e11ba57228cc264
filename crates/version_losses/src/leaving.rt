//! What goes with versions.
ghost use Rattle.std.specs.Prelude.{◌≡◌, ℕ, List, IfOk};
ghost use Rattle.core_tables.specs.declared.versions.Live.{Live};
ghost use Rattle.core_tables.specs.declared.versions.Removing.TheVariants as answer;
ghost use Rattle.core_tables.specs.Removal.{removing};
ghost use Rattle.exec_rules.specs.declared.version.Version.{Version};
ghost use Rattle.version_losses.specs.Losses.{AreLosses};
ghost use Rattle.version_losses.specs.Leaving.{Leaves};

use crate::losses::Losses;
use crate::walk::walked;
use pide_base::{ExecId, VersionId};
use std::alloc::{AllocError, Global};

/// What a removal comes to: the losses by the versions that stay, and the executions that go.
#[derive(Drop)]
pub struct Leaving {
    pub losses: Losses,
    pub gone: Vec<ExecId>,
}

impl Losses {
    /// What comes of a removal of the versions of these ids, none of which is the newest.
    pub fn leaving(&self, alloc: Global, ids: &[VersionId]) -> Result<Leaving, AllocError>
        ensures { IfOk result (λ leaving. (tip : Version) (top : ℕ) (live : List (Live Version))
            → AreLosses tip top 0 self.now.losses live → removing live ids.now ≡ answer.Removed
            → Leaves tip top ids.now live leaving) }
    {
        let leaving = walked(alloc, &self.losses, ids)?;
        Ok(leaving)
    }
}
