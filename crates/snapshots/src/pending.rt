//! The executions of a node that are still to be worked on.
ghost use Rattle.std.specs.Prelude.{◌≡◌, IfOk};
ghost use Rattle.snapshots.specs.Pending.{unfinished, IsPending};

use crate::part::AssignedPart;
use pide_base::ExecId;
use std::alloc::{AllocError, Global};

/// The execution of each part that isn't finished.
fn unfinished(alloc: Global, parts: &[AssignedPart<'_>]) -> Result<Vec<ExecId>, AllocError>
    ensures { IfOk result (λ execs. execs.items ≡ unfinished parts.now) }
{
    let mut execs = Vec::new(alloc);
    for part in parts {
        if part.reports.is_none() {
            execs.push(part.exec)?;
        }
    }
    Ok(execs)
}

/// The executions with an unfinished part, rising, each once.
pub(crate) fn pending(alloc: Global, parts: &[AssignedPart<'_>]) -> Result<Vec<ExecId>, AllocError>
    ensures { IfOk result (λ execs. IsPending parts.now execs.items) }
{
    let mut execs = unfinished(alloc, parts)?;
    execs.sort()?;
    execs.dedup();
    Ok(execs)
}
