//! How far versions are.
ghost use Rattle.std.specs.Prelude.{◌≡◌, ◌<◌, ◌≤◌, ℕ, true, false, not, ◌&&◌, ◌||◌, List, length, slice_index_or, is_some, Some, AllPairs, IfSome, IfNone, IfOk, OnErr};
ghost use Rattle.text_words.specs.Members.{has};
ghost use Rattle.pide_base.specs.Ids.{IsId};
ghost use Rattle.pide_base.specs.declared.part.Part.{Part};
ghost use Rattle.core_tables.specs.Tasks.{standing};
ghost use Rattle.core_tables.specs.Ready.{IsReadyPart, priority_of, comes_first};
ghost use Rattle.core_tables.specs.declared.versions.Live.{Live};
ghost use Rattle.core_tables.specs.Live.{version_of};
ghost use Rattle.exec_rules.specs.declared.version.Version.{Version};
ghost use Rattle.core_rules.specs.Assigned.{assigns};
ghost use Rattle.version_losses.specs.Losses.{AreLosses};
ghost use Rattle.prover_core.specs.Looked.{looked};
ghost use Rattle.prover_core.specs.Settling.{IsSettled, SettledSo, is_looked_at};

use crate::following::{is_present, same};
use crate::prover::Core;
use crate::table::Table;
use core_jobs::open_among;
use core_rules::{holders_law, homes_law, tip_law};
use core_tables::{Priority, TaskQueue};
use language::Language;
use pide_base::{ExecId, Part, VersionId};
use std::alloc::{AllocError, Global};
use version_losses::{Losses, add_below};

/// How far a version is.
#[derive(Drop)]
pub enum Settled {
    /// Each unfinished part that it assigns is stuck. These are its stuck executions, rising.
    Settled(Vec<ExecId>),
    /// It assigns this part, which is unfinished and not stuck.
    Left(Part),
    /// No such version is live.
    Unknown,
}

impl<L: Language> Core<L> {
    /// How far a version is. Only the list of what is stuck takes memory.
    pub fn settled(&self, id: VersionId) -> Result<Settled, AllocError>
        ensures settled { IfOk result (λ answer. SettledSo L.lang self.now.past id answer) }
        ensures err { OnErr result (IsSettled L.lang self.now.past id) }
    {
        tip_law::<L>();
        holders_law::<L>();
        homes_law::<L>();
        let Some(behind) = self.losses.number(id) else {
            return Ok(Settled::Unknown);
        };
        if let Some(part) = ready_below(&self.queue, behind) {
            return Ok(Settled::Left(part));
        }
        if let Some(part) = held_below(&self.holders, &self.queue, behind) {
            return Ok(Settled::Left(part));
        }
        let all = looked_at(
            self.alloc,
            &self.losses,
            &self.queue,
            &self.cancelled,
            id,
            behind,
        )?;
        Ok(Settled::Settled(open_among(self.alloc, &self.execs, &all)?))
    }
}

/// Among these are the executions of a settled version with an unfinished part: what newer versions
/// lost, and, where something of the newest is cancelled, what of it is cancelled or has a task,
/// below the number that came next when the version was made. What a version assigns is not looked
/// at.
fn looked_at(
    alloc: Global,
    losses: &Losses,
    queue: &TaskQueue,
    cancelled: &[ExecId],
    id: VersionId,
    behind: u64,
) -> Result<Vec<ExecId>, AllocError>
    ensures { IfOk result (λ all. (tip : Version) (top : ℕ) (live : List (Live Version))
        (version : Version) → AreLosses tip top 0 losses.now.losses live
        → version_of live id ≡ Some version → (e : ℕ) → IsId e → has all.items e
        ≡ ((assigns version e && not (assigns tip e))
        || is_looked_at cancelled.now (standing queue.now) behind e)) }
{
    let mut all = losses.lost_since(alloc, id)?;
    if cancelled.is_empty() {
        return Ok(all);
    }
    let tasked = queue.executions(alloc)?;
    add_below(&mut all, cancelled, behind)?;
    add_below(&mut all, &tasked, behind)?;
    Ok(all)
}

/// A ready part of an execution below this number: one of the oldest of its priority.
fn ready_below(queue: &TaskQueue, behind: u64) -> Option<Part>
    ensures some { IfSome result (λ part. (part.exec < behind)
        × IsReadyPart (standing queue.now) part) }
    ensures none { IfNone result ((part : Part) → IsReadyPart (standing queue.now) part
        → behind ≤ part.exec) }
{
    let parts = queue.ready();
    let mut end = parts.len();
    'classes: while end > 0 {
        let oldest = &parts[end - 1];
        if oldest.exec.number() < behind {
            return Some(same(oldest));
        }
        end = class_start(queue, parts, end - 1);
    }
    None
}

/// Where the ready parts begin that have the priority of the one at this place: none between is
/// older than that.
fn class_start(queue: &TaskQueue, parts: &[Part], place: usize) -> usize
    requires order { AllPairs (λ p q. comes_first (standing queue.now) q.exec p.exec ≡ true)
        parts.now }
    requires place { place < length parts.now }
    ensures within { result ≤ place }
    ensures oldest { (j : ℕ) (d : Part) → result ≤ j → j ≤ place
        → (slice_index_or parts.now place d).exec ≤ (slice_index_or parts.now j d).exec }
{
    let priority = priority_of(queue, parts[place].exec);
    let mut low = 0;
    let mut high = place;
    'halves: while low < high {
        let middle = low + (high - low) / 2;
        if priority_of(queue, parts[middle].exec) == priority {
            high = middle;
        } else {
            low = middle + 1;
        }
    }
    high
}

/// The priority of the execution's present part.
fn priority_of(queue: &TaskQueue, exec: ExecId) -> Priority
    ensures { result ≡ priority_of (standing queue.now) exec }
{
    match queue.get(exec) {
        Some(standing) => standing.priority,
        None => Priority::Fork,
    }
}

/// A part that is held and still wanted, of an execution below this number.
fn held_below(holders: &Table<Part>, queue: &TaskQueue, behind: u64) -> Option<Part>
    ensures some { IfSome result (λ part. (part.exec < behind)
        × (is_some (standing queue.now part.exec) ≡ true)
        × ((who : ℕ) × (looked holders.now who ≡ Some part))) }
    ensures none { IfNone result ((who : ℕ) (part : Part) → looked holders.now who ≡ Some part
        → part.exec < behind → is_some (standing queue.now part.exec) ≡ false) }
{
    for (_, part) in holders.iter() {
        if part.exec.number() < behind && is_present(queue, part.exec) {
            return Some(same(part));
        }
    }
    None
}
