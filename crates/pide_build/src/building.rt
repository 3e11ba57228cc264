//! A build.
ghost use Rattle.std.specs.Prelude.{◌≡◌, map, IfOk, IsPermutation};
ghost use Rattle.doc_nodes.specs.Imports.{order};
ghost use Rattle.pide_build.specs.Cutting.{AreUncut, cut_all};
ghost use Rattle.pide_build.specs.Built.{built_of};

use crate::batch_laws::scratch_law;
use crate::batches::batches_of;
use crate::built_batch::Work;
use crate::gathering::gathered;
use crate::order_law::batches_law;
use crate::progress::Progress;
use crate::telling::Telling;
use doc_nodes::{ImportGraph, Nodes, aliases_of, order_law};
use language::Language;
use pide_base::Gate;
use std::alloc::{AllocError, Global};
use std::sync::Wait;
use std::thread::Threads;

/// What came of a build.
#[derive(Drop)]
pub struct Built<M> {
    /// What is told of all nodes, in the order of imports.
    pub nodes: Vec<M>,
    /// Their places by name, from 0 on, in the order in which what came of them was gathered.
    pub taken: Vec<usize>,
}

/// Cuts and checks all nodes, each once, in this thread, which is worker 0, and in at most so many
/// others: a batch begins when all nodes of those before it are checked. Each worker comes to the
/// points of the gate, where a node is the evaluation with the number after its place. Where one
/// meets want of memory, that is the answer.
pub fn build<L: Language + Sync, T: Telling + Sync, G: Gate + Sync, R: Threads + Wait + Sync>(
    rt: &R,
    alloc: Global,
    language: &L,
    telling: &T,
    nodes: &Nodes,
    workers: u32,
    gate: &G,
) -> Result<Built<T::Told>, AllocError>
where
    L::State: Send + Sync,
    T::Told: Send,
    requires { AreUncut nodes.now }
    ensures nodes { IfOk result (λ built. built.nodes.items
        ≡ map T.told (built_of L.lang (cut_all nodes.now))) }
    ensures once { IfOk result (λ built. IsPermutation (order nodes.now) built.taken.items) }
{
    order_law();
    batches_law();
    scratch_law::<L>();
    let graph = ImportGraph::of(alloc, nodes)?;
    let aliases = aliases_of(alloc, nodes, &graph)?;
    let batches = batches_of(alloc, nodes, &graph)?;
    let work = Work {
        language,
        telling,
        nodes,
        graph: &graph,
        aliases: &aliases,
        workers,
        gate,
    };
    let mut kept = Progress::new(alloc, nodes.len())?;
    let mut taken = Vec::with_capacity(alloc, nodes.len())?;
    'batches: for batch in &batches {
        work.check(rt, alloc, batch.as_slice(), &mut kept, &mut taken)?;
    }
    let Progress { behind, told } = kept;
    drop(behind);
    let nodes = gathered(alloc, graph.order(), told)?;
    Ok(Built { nodes, taken })
}
