//! The nodes of a batch.
ghost use Rattle.std.specs.Prelude.{◌≡◌, ◌<◌, length, slice_index, IfOk, IsPermutation};
ghost use Rattle.std.specs.List.{range_with_len};
ghost use Rattle.task_round.specs.Rounds.{AreMade};
ghost use Rattle.pide_build.specs.Cutting.{cut_all};
ghost use Rattle.pide_build.specs.Tasks.{IsReady, MakesSo};

use crate::starting::{Before, begin};
use crate::telling::{BuiltNode, Checked, Telling};
use buffer_laws::places_law;
use buffer_rules::ids_law;
use joined_results::both;
use language::Language;
use node_check::{NodeRun, check_node};
use pide_base::{ExecId, Gate, Part, PartKind, Point};
use sqlite_items::Items;
use std::alloc::{AllocError, Global};
use std::sync::Wait;
use std::thread::Threads;
use task_round::{Round, Tasks, run_round};

/// The nodes at these places, when others were done before them, and what is to be told of them.
#[derive(Drop)]
pub struct Batch<'a, L: Language, G, T> {
    pub language: &'a L,
    pub before: &'a Before<'a, L::State>,
    pub places: &'a [usize],
    pub telling: &'a T,
    pub gate: &'a G,
}

/// A node as a gate is told of it: the evaluation with the number after its place.
fn part_of(place: usize) -> Option<Part> {
    let exec = ExecId::new((place as u64).saturating_add(1))?;
    let kind = PartKind::Eval;
    Some(Part { exec, kind })
}

/// Tells the gate that the worker begins with a node.
fn tell_claimed<G: Gate>(gate: &G, worker: u32, place: usize) {
    if let Some(part) = part_of(place) {
        gate.at(worker, Point::Claimed(part));
    }
}

/// Tells the gate that the worker is done with a node.
fn tell_finished<G: Gate>(gate: &G, worker: u32, place: usize) {
    if let Some(part) = part_of(place) {
        gate.at(worker, Point::BeforeFinish(part));
    }
}

impl<'a, L: Language, G: Gate, T: Telling> Batch<'a, L, G, T> {
    /// Checks the node at a place.
    fn checked(&self, alloc: Global, place: usize) -> Result<Checked<T::Told, L::State>, AllocError>
        requires ready { IsReady self.now.before.now.nodes.now self.now.before.now.graph.now
            self.now.before.now.aliases.now self.now.places.now }
        requires place { place < length self.now.before.now.nodes.now }
        ensures { IfOk result (λ made. MakesSo L.lang T.told
            (cut_all self.now.before.now.nodes.now) self.now.before.now.behind.now place made) }
    {
        places_law();
        ids_law();
        let Some((name, node)) = self.before.nodes.at(place) else {
            unreachable!()
        };
        let Some(aliases) = self.before.aliases.get(place) else {
            unreachable!()
        };
        let begins = begin(alloc, self.language, self.before, place)?;
        let run = check_node(alloc, self.language, node, aliases.pairs.get(), begins);
        let (node, run) = both(name.clone(), run)?;
        let NodeRun { reports, behind } = run;
        let reports = Items::from_vec(reports);
        let told = self.telling.tell(alloc, BuiltNode { node, reports });
        let (told, behind) = both(told, Ok(behind))?;
        Ok(Checked { told, behind })
    }
}

impl<'a, L: Language, G: Gate, T: Telling> Tasks for Batch<'a, L, G, T>
where
    L::State: Send,
    T::Told: Send,
{
    type Made = Checked<T::Told, L::State>;

    ghost count = { λ b. length b.places.now };

    ghost ready = { λ b. IsReady b.before.now.nodes.now b.before.now.graph.now
        b.before.now.aliases.now b.places.now };

    ghost makes = { λ b task made. MakesSo L.lang T.told (cut_all b.before.now.nodes.now)
        b.before.now.behind.now (slice_index b.places.now task) made };

    fn count(&self) -> usize {
        self.places.len()
    }

    fn run(
        &self,
        alloc: Global,
        worker: u32,
        task: usize,
    ) -> Result<Checked<T::Told, L::State>, AllocError> {
        let place = self.places[task];
        tell_claimed(self.gate, worker, place);
        let checked = self.checked(alloc, place);
        tell_finished(self.gate, worker, place);
        checked
    }
}

/// Checks the nodes of a batch, in this thread and in at most so many others.
pub fn check_batch<L: Language + Sync, G: Gate + Sync, T: Telling + Sync, R: Threads + Wait + Sync>(
    rt: &R,
    alloc: Global,
    batch: &Batch<'_, L, G, T>,
    workers: u32,
) -> Result<Round<Checked<T::Told, L::State>>, AllocError>
where
    L::State: Send + Sync,
    T::Told: Send,
    requires { IsReady batch.now.before.now.nodes.now batch.now.before.now.graph.now
        batch.now.before.now.aliases.now batch.now.places.now }
    ensures length { IfOk result (λ round. length round.made.items
        ≡ length batch.now.places.now) }
    ensures made { IfOk result (λ round. AreMade (λ task. MakesSo L.lang T.told
        (cut_all batch.now.before.now.nodes.now) batch.now.before.now.behind.now
        (slice_index batch.now.places.now task)) 0 round.made.items) }
    ensures once { IfOk result (λ round. IsPermutation
        (range_with_len 0 (length batch.now.places.now)) round.taken.items) }
{
    run_round(rt, alloc, batch, workers)
}
