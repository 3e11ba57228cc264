//! All that an update will do.
ghost use Rattle.std.specs.Prelude.{◌≡◌, ◌&&◌, ◌+◌, ◌<◌, ◌≤◌, ℕ, true, false, not, length, map, reverse, Err, IfOk};
ghost use Rattle.std.specs.List.{AllByRecursion};
ghost use Rattle.text_words.specs.Members.{has};
ghost use Rattle.pide_base.specs.Ids.{id_end};
ghost use Rattle.exec_rules.specs.Assigning.{assignment};
ghost use Rattle.exec_rules.specs.Listed.{listed};
ghost use Rattle.exec_assign.specs.declared.fault.AssignFault.TheVariants.{Limit};
ghost use Rattle.exec_assign.specs.Fitting.{RowsFit};
ghost use Rattle.exec_assign.specs.Told.{told_node};
ghost use Rattle.exec_assign.specs.Untouched.{AreChanged};
ghost use Rattle.core_rules.specs.Assigned.{assigns, is_visible};
ghost use Rattle.update_plans.specs.Alive.{HaveCommands};
ghost use Rattle.update_plans.specs.Begun.{AreBegun};
ghost use Rattle.update_plans.specs.Cancelled.{IsQuiet};
ghost use Rattle.update_plans.specs.Steps.{update_by, made_by_update, Succeeds};

use crate::beginning::Fresh;
use crate::cancelled::CancelledOf;
use crate::marking::untouched;
use crate::outcome::{steps_of, version_made};
use crate::seeing::Sight;
use core_tables::Execs;
use doc_nodes::Nodes;
use exec_assign::{AssignFault, ChangedBlobs, ToldNode, Update};
use exec_rules::{Blobs, Version, numbers_law};
use joined_results::both;
use pide_base::ExecId;
use std::alloc::Global;

/// What an update will do.
#[derive(Drop)]
pub struct Steps {
    /// The version that it makes.
    pub version: Version,
    /// The number of the next execution behind it.
    pub next: u64,
    /// The new executions, by falling numbers: the first stands last.
    pub fresh: Vec<Fresh>,
    /// The executions that the version has no more.
    pub dropped: Vec<ExecId>,
    /// The evaluations that may be seen otherwise than before.
    pub sights: Vec<Sight>,
    /// The nodes whose rows are others than before, in the order of names.
    pub told: Vec<ToldNode>,
}

/// What the update of a version to these nodes and blobs will do, when the table has how far its
/// executions are and this is the next one's number. The names of the blobs that changed are told,
/// and by marks, in the order of names, which nodes have the commands that they had. Where it is
/// quiet, nothing that the version assigns is cancelled, and no row of a node that is marked is
/// looked at to see that. `Limit` comes only where a new execution would have no id, and there
/// nothing is worked out.
pub fn work_out<R>(
    alloc: Global,
    execs: &Execs<R>,
    next: u64,
    before: &Version,
    nodes: &Nodes,
    blobs: &Blobs,
    changed: &ChangedBlobs,
    marks: &[bool],
    quiet: bool,
) -> Result<Steps, AssignFault>
    requires first { 1 ≤ next }
    requires next { next ≤ id_end }
    requires changed { AreChanged changed.now before.now.blobs blobs.now }
    requires commands { HaveCommands before.now nodes.now marks.now }
    requires quiet { quiet ≡ true → IsQuiet execs.now.rows before.now }
    requires fits { RowsFit before.now }
    requires succeeds { Succeeds (update_by execs.now.rows before.now nodes.now blobs.now) next }
    ensures version { IfOk result (λ steps. steps.version
        ≡ made_by_update (update_by execs.now.rows before.now nodes.now blobs.now) next) }
    ensures next { IfOk result (λ steps. steps.next
        ≡ (assignment (update_by execs.now.rows before.now nodes.now blobs.now) next).next) }
    ensures within { IfOk result (λ steps. steps.next ≤ id_end) }
    ensures rows { IfOk result (λ steps. RowsFit steps.version) }
    ensures fresh { IfOk result (λ steps. AreBegun execs.now.rows next
        (assignment (update_by execs.now.rows before.now nodes.now blobs.now) next).homes
        (reverse steps.fresh.items)) }
    ensures dropped { IfOk result (λ steps. (e : ℕ) → has steps.dropped.items e
        ≡ (assigns before.now e && not (assigns steps.version e))) }
    ensures sees { IfOk result (λ steps. AllByRecursion
        (λ sight. is_visible steps.version sight.exec ≡ sight.visible) steps.sights.items) }
    ensures unseen { IfOk result (λ steps. (e : ℕ)
        → has (map (λ sight. sight.exec) steps.sights.items) e ≡ false
        → is_visible steps.version e ≡ is_visible before.now e) }
    ensures told { IfOk result (λ steps. map told_node steps.told.items
        ≡ listed before.now steps.version) }
    ensures limit { result ≡ Err Limit → id_end
        < (assignment (update_by execs.now.rows before.now nodes.now blobs.now) next).next }
{
    numbers_law();
    let marks = untouched(alloc, execs, before, nodes, marks, quiet)?;
    let cancelled = CancelledOf::of(execs);
    let update = Update::of(alloc, before, nodes, blobs, &cancelled, changed, &marks)?;
    let made = update.assign(alloc, next)?;
    let told = update.listed(alloc, &made);
    drop(update);
    drop(marks);
    let (outcome, told) = both(version_made(nodes, blobs, made), told)?;
    let steps = steps_of(alloc, execs, next, before, outcome, told)?;
    Ok(steps)
}
