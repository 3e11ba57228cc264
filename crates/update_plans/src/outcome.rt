//! The version that an update makes, and the steps to it.
ghost use Rattle.std.specs.Prelude.{◌≡◌, ◌&&◌, ◌+◌, ◌≤◌, ℕ, false, not, length, map, reverse, IfOk};
ghost use Rattle.std.specs.List.{AllByRecursion};
ghost use Rattle.text_words.specs.Members.{has};
ghost use Rattle.pide_base.specs.Ids.{id_end};
ghost use Rattle.core_rules.specs.Assigned.{assigns, is_visible};
ghost use Rattle.update_plans.specs.Beside.{Follows};
ghost use Rattle.update_plans.specs.Begun.{AreBegun};

use crate::beginning::new_executions;
use crate::dropping::dropped;
use crate::seeing::sights;
use crate::steps::Steps;
use core_tables::Execs;
use doc_nodes::Nodes;
use exec_assign::{Assignment, ToldNode};
use exec_rules::{Blobs, Home, Version};
use joined_results::{both, each_of_three};
use sqlite_items::Items;
use std::alloc::{AllocError, Global};

/// A version, with the homes of its new executions, the next number, and which of its nodes stand.
#[derive(Drop)]
pub(crate) struct Outcome {
    pub(crate) version: Version,
    pub(crate) homes: Items<Home>,
    pub(crate) next: u64,
    pub(crate) standing: Items<bool>,
}

/// The version with what is assigned in it.
pub(crate) fn version_made(
    nodes: &Nodes,
    blobs: &Blobs,
    made: Assignment,
) -> Result<Outcome, AllocError>
    ensures version { IfOk result (λ outcome. outcome.version
        ≡ record { nodes = nodes.now; blobs = blobs.now; assigned = made.assigned }) }
    ensures homes { IfOk result (λ outcome. outcome.homes ≡ made.homes) }
    ensures next { IfOk result (λ outcome. outcome.next ≡ made.next) }
    ensures standing { IfOk result (λ outcome. outcome.standing ≡ made.standing) }
{
    let (nodes, blobs, made) = each_of_three(nodes.copy(), blobs.copy(), Ok(made))?;
    let Assignment {
        assigned,
        homes,
        next,
        standing,
    } = made;
    Ok(Outcome {
        version: Version {
            nodes,
            blobs,
            assigned,
        },
        homes,
        next,
        standing,
    })
}

/// The steps from the version before to the outcome.
pub(crate) fn steps_of<R>(
    alloc: Global,
    execs: &Execs<R>,
    next: u64,
    before: &Version,
    outcome: Outcome,
    told: Vec<ToldNode>,
) -> Result<Steps, AllocError>
    requires first { 1 ≤ next }
    requires within { next + length outcome.homes ≤ id_end }
    requires follows { Follows before.now outcome.version outcome.standing }
    ensures version { IfOk result (λ steps. steps.version ≡ outcome.version) }
    ensures next { IfOk result (λ steps. steps.next ≡ outcome.next) }
    ensures fresh { IfOk result (λ steps. AreBegun execs.now.rows next outcome.homes
        (reverse steps.fresh.items)) }
    ensures dropped { IfOk result (λ steps. (e : ℕ) → has steps.dropped.items e
        ≡ (assigns before.now e && not (assigns outcome.version e))) }
    ensures sees { IfOk result (λ steps. AllByRecursion
        (λ sight. is_visible outcome.version sight.exec ≡ sight.visible) steps.sights.items) }
    ensures unseen { IfOk result (λ steps. (e : ℕ)
        → has (map (λ sight. sight.exec) steps.sights.items) e ≡ false
        → is_visible outcome.version e ≡ is_visible before.now e) }
    ensures told { IfOk result (λ steps. steps.told.items ≡ told.items) }
{
    let Outcome {
        version,
        homes,
        next: behind,
        standing,
    } = outcome;
    let dropped = dropped(alloc, before, &version, standing.as_slice());
    let sights = sights(alloc, before, &version, standing.as_slice());
    let fresh = new_executions(alloc, execs, next, homes);
    let seen = both(dropped, sights);
    let (fresh, (dropped, sights), (version, told)) = each_of_three(
        fresh,
        seen,
        Ok((version, told)),
    )?;
    Ok(Steps {
        version,
        next: behind,
        fresh,
        dropped,
        sights,
        told,
    })
}
