//! Taking a snapshot.
ghost use Rattle.std.specs.Prelude.{◌≡◌, ◌≢◌, ◌↔◌, [], map, IfOk, IsTrue};
ghost use Rattle.snapshots.specs.Seen.{seen};
ghost use Rattle.snapshots.specs.Gathered.{snapshot_reports, AllMovable};
ghost use Rattle.snapshots.specs.Pending.{IsPending};

use crate::content::Snapshot;
use crate::gather::gather;
use crate::part::AssignedPart;
use crate::pending::pending;
use std::alloc::{AllocError, Global};
use text_edits::Edit;

/// The snapshot of the node whose parts these are, those of one command side by side, in a text
/// that the edits have changed since. Where the parts' reports are in order, and no edit disturbs
/// it, this is linear.
pub fn snapshot<'a>(
    alloc: Global,
    parts: &[AssignedPart<'a>],
    edits: &[Edit],
) -> Result<Snapshot<'a>, AllocError>
    requires { AllMovable edits.now parts.now }
    ensures reports { IfOk result (λ s. map seen s.reports.items ≡ snapshot_reports edits.now
        parts.now) }
    ensures pending { IfOk result (λ s. IsPending parts.now s.pending.items) }
    ensures outdated { IfOk result (λ s. IsTrue s.outdated ↔ (edits.now ≢ [])) }
{
    Ok(Snapshot {
        reports: gather(alloc, parts, edits)?,
        pending: pending(alloc, parts)?,
        outdated: !edits.is_empty(),
    })
}
