//! A version checked from nothing: its nodes in the order of imports, in each one command after the
//! other. No execution, worker or version before is in it.
use crate::sharing::shared;
use crate::tally::Tally;
use doc_nodes::{Entry, ImportGraph, Node, NodeAliases, Nodes, aliases_of};
use exec_rules::Blobs;
use joined_results::both;
use language::{Answer, Imported, Imports, Language, Made};
use outer_syntax::scalars;
use pide_base::Never;
use report_markup::Report;
use script_lines::{Fault, once};
use sqlite_items::Items;
use std::alloc::{AllocError, Global};

/// What is reported of a command, by the place where its span begins.
#[derive(Drop)]
pub(crate) struct Said {
    pub(crate) start: usize,
    pub(crate) report: Report,
}

/// All that is reported of a node.
#[derive(Drop)]
pub(crate) struct Checked {
    pub(crate) name: String,
    pub(crate) said: Vec<Said>,
}

fn given<T>(answer: Answer<T>) -> Result<T, Fault> {
    match answer {
        Answer::Given(value) => Ok(value),
        Answer::Stopped => Err(Fault::Line),
        Answer::NoMemory => Err(Fault::NoMemory),
    }
}

/// The language has one report of each part.
fn add(said: &mut Vec<Said>, start: usize, reports: Items<Report>) -> Result<(), Fault> {
    let mut reports = reports;
    if let Some(report) = reports.pop() {
        said.push(Said { start, report })?;
    }
    Ok(())
}

/// The states behind nodes that were checked, by place.
type Ends = Vec<u64>;

/// What a node begins with.
fn imports_of(
    alloc: Global,
    graph: &ImportGraph,
    place: usize,
    node: &Node,
    ends: &Ends,
) -> Result<Imports<u64>, Fault> {
    let names = node.imports.get().as_slice();
    let mut imports = Items::new(alloc);
    for (name, aim) in names.iter().zip(graph.aims(place)) {
        match end_of(graph, *aim, ends) {
            None => return bad(alloc, name.as_slice()),
            Some(end) => imports.push(imported(alloc, name.as_slice(), end)?)?,
        }
    }
    Ok(Imports::Ordered(imports))
}

/// The state behind an import that comes before its importers.
fn end_of(graph: &ImportGraph, aim: Option<usize>, ends: &Ends) -> Option<u64> {
    match aim {
        Some(aim) if graph.is_ordered(aim) => ends.get(aim).copied(),
        _ => None,
    }
}

fn bad(alloc: Global, name: &[char]) -> Result<Imports<u64>, Fault> {
    Ok(Imports::Bad(Items::from_slice(alloc, name)?))
}

fn imported(alloc: Global, name: &[char], end: u64) -> Result<Imported<u64>, Fault> {
    let state = shared(alloc, end)?;
    let name = Items::from_slice(alloc, name)?;
    Ok(Imported { name, state })
}

/// What is reported of a command; the state behind it is answered.
fn command(
    alloc: Global,
    node: &Node,
    entry: &Entry,
    blobs: &Blobs,
    state: u64,
    said: &mut Vec<Said>,
) -> Result<u64, Fault> {
    let source = scalars(node.text.get().as_slice(), entry.range);
    let blob = match &entry.needs {
        Some(name) => blobs.get(name),
        None => None,
    };
    let blob = match blob {
        Some(text) => Some(text.get().as_slice()),
        None => None,
    };
    let start = entry.range.start;
    let Made {
        state: behind,
        reports,
        forks,
    } = given(Tally.step(alloc, source, blob, &state, &mut Never::new()))?;
    add(said, start, reports)?;
    if forks {
        let forked = given(Tally.fork(alloc, source, &state, &mut Never::new()))?;
        add(said, start, forked)?;
    }
    if entry.visible {
        add(said, start, Tally.print(alloc, source, &behind)?)?;
    }
    Ok(behind)
}

/// What is reported of all commands of a node; the state behind them is answered.
fn commands(
    alloc: Global,
    node: &Node,
    blobs: &Blobs,
    begun: u64,
    said: &mut Vec<Said>,
) -> Result<u64, Fault> {
    let mut state = begun;
    for entry in node.entries.get().as_slice() {
        state = command(alloc, node, entry, blobs, state, said)?;
    }
    Ok(state)
}

/// A version that is checked.
#[derive(Drop)]
struct Checking<'a> {
    nodes: &'a Nodes,
    blobs: &'a Blobs,
    graph: ImportGraph,
    aliases: Vec<NodeAliases>,
}

/// The state that the node at a place begins with.
fn begun_at(
    alloc: Global,
    version: &Checking<'_>,
    place: usize,
    ends: &Ends,
) -> Result<u64, Fault> {
    let (name, node) = version.nodes.at(place).ok_or(Fault::Line)?;
    let aliases = version.aliases.get(place).ok_or(Fault::Line)?;
    let imports = imports_of(alloc, &version.graph, place, node, ends)?;
    let begun = Tally.start(alloc, name, &imports, aliases);
    drop(imports);
    Ok(begun?)
}

/// The node at a place; the state behind it goes in among the others.
fn check_node(
    alloc: Global,
    version: &Checking<'_>,
    place: usize,
    ends: &mut Ends,
) -> Result<Checked, Fault> {
    let (name, node) = version.nodes.at(place).ok_or(Fault::Line)?;
    let begun = begun_at(alloc, version, place, ends)?;
    let name = String::from_str(alloc, name.as_str())?;
    let (said, end) = said_of(alloc, node, version.blobs, begun)?;
    if let Some(there) = ends.get_mut(place) {
        *there = end;
    }
    Ok(Checked { name, said })
}

/// All that is reported of a node, and the state behind it.
fn said_of(
    alloc: Global,
    node: &Node,
    blobs: &Blobs,
    begun: u64,
) -> Result<(Vec<Said>, u64), Fault> {
    let mut said = Vec::new(alloc);
    match commands(alloc, node, blobs, begun, &mut said) {
        Ok(end) => Ok((said, end)),
        Err(fault) => {
            drop(said);
            Err(fault)
        }
    }
}

fn begin_check<'a>(
    alloc: Global,
    nodes: &'a Nodes,
    blobs: &'a Blobs,
) -> Result<Checking<'a>, AllocError> {
    let graph = ImportGraph::of(alloc, nodes)?;
    let aliases = aliases_of(alloc, nodes, &graph);
    let (graph, aliases) = both(Ok(graph), aliases)?;
    Ok(Checking {
        nodes,
        blobs,
        graph,
        aliases,
    })
}

/// States for as many nodes, none of which is checked yet.
fn no_ends(alloc: Global, count: usize) -> Result<Ends, AllocError> {
    let mut ends = Vec::new(alloc);
    for _ in 0..count {
        ends.push(0)?;
    }
    Ok(ends)
}

fn check_all(
    alloc: Global,
    version: &Checking<'_>,
    ends: &mut Ends,
) -> Result<Vec<Checked>, Fault> {
    let mut all = Vec::new(alloc);
    let put = put_all(alloc, version, ends, &mut all);
    once(put, all)
}

fn put_all(
    alloc: Global,
    version: &Checking<'_>,
    ends: &mut Ends,
    all: &mut Vec<Checked>,
) -> Result<(), Fault> {
    for place in version.graph.order() {
        all.push(check_node(alloc, version, *place, ends)?)?;
    }
    Ok(())
}

/// All nodes, in the order of imports.
pub(crate) fn check(alloc: Global, nodes: &Nodes, blobs: &Blobs) -> Result<Vec<Checked>, Fault> {
    let mut ends = no_ends(alloc, nodes.len())?;
    let version = begin_check(alloc, nodes, blobs)?;
    let all = check_all(alloc, &version, &mut ends);
    drop(version);
    all
}
