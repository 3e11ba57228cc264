//! One batch of nodes.
ghost use Rattle.std.specs.Prelude.{◌≡◌, ◌<◌, ℕ, [], ◌++◌, List, length, map, slice_index, vec_len, OnOk, IsPermutation};
ghost use Rattle.std.specs.List.{All};
ghost use Rattle.core_rules.specs.Scratch.{Runs};
ghost use Rattle.pide_build.specs.Cutting.{cut_all};
ghost use Rattle.pide_build.specs.Tasks.{IsReady};
ghost use Rattle.pide_build.specs.Running.{run_batch};
ghost use Rattle.pide_build.specs.Standing.{Keeps};

use crate::batch::{Batch, check_batch};
use crate::progress::Progress;
use crate::starting::Before;
use crate::telling::Telling;
use doc_nodes::{ImportGraph, NodeAliases, Nodes};
use language::Language;
use pide_base::Gate;
use std::alloc::{AllocError, Global};
use std::sync::Wait;
use std::thread::Threads;
use task_round::Round;

/// What is checked, what is told of it, and by how many.
#[derive(Drop)]
pub(crate) struct Work<'a, L: Language, G, T> {
    pub language: &'a L,
    pub telling: &'a T,
    pub nodes: &'a Nodes,
    pub graph: &'a ImportGraph,
    pub aliases: &'a [NodeAliases],
    pub workers: u32,
    pub gate: &'a G,
}

/// Adds the places that have these numbers in a batch.
fn add_places(all: &mut Vec<usize>, places: &[usize], numbers: &[usize]) -> Result<(), AllocError>
    requires { All (λ number. number < length places.now) numbers.now }
    ensures { OnOk result (all.new.items
        ≡ all.old.items ++ map (slice_index places.now) numbers.now) }
{
    'numbers: for number in numbers {
        all.push(places[*number])?;
    }
    Ok(())
}

impl<'a, L: Language + Sync, G: Gate + Sync, T: Telling + Sync> Work<'a, L, G, T>
where
    L::State: Send + Sync,
    T::Told: Send,
{
    /// Checks the nodes at these places, when those of the batches before were checked: what came
    /// of them is kept, and their places are added to `taken` in the order of gathering.
    pub(crate) fn check<R: Threads + Wait + Sync>(
        &self,
        rt: &R,
        alloc: Global,
        places: &[usize],
        kept: &mut Progress<T::Told, L::State>,
        taken: &mut Vec<usize>,
    ) -> Result<(), AllocError>
        requires ready { IsReady self.now.nodes.now self.now.graph.now self.now.aliases.now
            places.now }
        requires states { length kept.old.behind.items ≡ length self.now.nodes.now }
        requires told { length kept.old.told.items ≡ length self.now.nodes.now }
        ensures kept { (before : Runs L.State)
            → Keeps L.lang T.told (cut_all self.now.nodes.now) before kept.old
            → OnOk result (Keeps L.lang T.told (cut_all self.now.nodes.now)
            (run_batch L.lang (cut_all self.now.nodes.now) [] before places.now before)
            kept.new) }
        ensures taken { (done : List ℕ) → IsPermutation done taken.old.items
            → OnOk result (IsPermutation (done ++ places.now) taken.new.items) }
    {
        let before = Before {
            nodes: self.nodes,
            graph: self.graph,
            aliases: self.aliases,
            behind: &kept.behind,
        };
        let batch = Batch {
            language: self.language,
            before: &before,
            places,
            telling: self.telling,
            gate: self.gate,
        };
        let round = check_batch(rt, alloc, &batch, self.workers)?;
        let Round {
            made,
            taken: numbers,
        } = round;
        add_places(taken, places, &numbers)?;
        kept.keep_all(alloc, places, made)
    }
}
