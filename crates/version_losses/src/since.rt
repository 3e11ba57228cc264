//! What a version has that newer ones lost.
ghost use Rattle.std.specs.Prelude.{◌≡◌, ℕ, not, ◌&&◌, List, Some, flat_map, IfOk};
ghost use Rattle.text_words.specs.Members.{has};
ghost use Rattle.core_tables.specs.declared.versions.Live.{Live};
ghost use Rattle.core_tables.specs.Live.{version_of};
ghost use Rattle.exec_rules.specs.declared.version.Version.{Version};
ghost use Rattle.core_rules.specs.Assigned.{assigns};
ghost use Rattle.version_losses.specs.Losses.{AreLosses};
ghost use Rattle.version_losses.specs.Leaving.{below};

use crate::losses::{Loss, Losses};
use crate::walk::add_below;
use pide_base::{ExecId, VersionId};
use std::alloc::{AllocError, Global};

impl Losses {
    /// The executions that the version of this id has and the newest has not. No version is looked
    /// at: what newer ones lost is.
    pub fn lost_since(&self, alloc: Global, id: VersionId) -> Result<Vec<ExecId>, AllocError>
        ensures { IfOk result (λ lost. (tip : Version) (top : ℕ) (live : List (Live Version))
            (version : Version) → AreLosses tip top 0 self.now.losses live
            → version_of live id ≡ Some version
            → (e : ℕ) → has lost.items e ≡ (assigns version e && not (assigns tip e))) }
    {
        let mut rest = self.losses.as_slice();
        'older: while let Some((loss, newer)) = rest.split_first() {
            if loss.id == id {
                return lost_below(alloc, newer, loss.next);
            }
            rest = newer;
        }
        Ok(Vec::new(alloc))
    }
}

/// What these versions lost of those below the number.
fn lost_below(alloc: Global, newer: &[Loss], next: u64) -> Result<Vec<ExecId>, AllocError>
    ensures { IfOk result (λ lost. lost.items
        ≡ flat_map (λ loss. below next loss.lost) newer.now) }
{
    let mut lost = Vec::new(alloc);
    'versions: for loss in newer {
        add_below(&mut lost, loss.lost.get().as_slice(), next)?;
    }
    Ok(lost)
}
