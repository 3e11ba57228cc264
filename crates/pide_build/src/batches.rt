//! The batches.
ghost use Rattle.std.specs.Prelude.{IfOk};
ghost use Rattle.doc_nodes.specs.Graphs.{IsGraphOf};
ghost use Rattle.pide_build.specs.Batches.{AreBatches};

use crate::fitting::{begins, fitting, with_marks};
use doc_nodes::{ImportGraph, Nodes};
use sqlite_items::Items;
use std::alloc::{AllocError, Global};

/// The places of all nodes in the order of imports, batch by batch. A batch may be empty.
pub fn batches_of(
    alloc: Global,
    nodes: &Nodes,
    graph: &ImportGraph,
) -> Result<Vec<Items<usize>>, AllocError>
    requires { IsGraphOf nodes.now graph.now }
    ensures { IfOk result (λ all. AreBatches nodes.now all.items) }
{
    let mut marks = vec![in alloc; false; nodes.len()]?;
    let mut all = Vec::new(alloc);
    let mut rest = graph.order();
    'rounds: while begins(graph, rest) {
        let (round, later) = rest.split_at(fitting(graph, &marks, rest));
        all.push(Items::from_slice(alloc, round)?)?;
        marks = with_marks(marks, round);
        rest = later;
    }
    all.push(Items::from_slice(alloc, rest)?)?;
    Ok(all)
}
