//! What goes by the imports of nodes (`doc_nodes`): their order, the aliases that are in force, and
//! how many commands of each are wanted.
use crate::listed::put_numbers;
use crate::shared::{put_scalars, scalars_of};
use doc_nodes::{
    Aliases, ImportGraph, Node, NodeAliases, Nodes, Placed, aliases_of, import_order,
    wanted_counts, wanted_prefix,
};
use script_lines::Fault;
use std::alloc::{AllocError, Global};

/// A node, and behind `!` its bad import.
fn put_placed(out: &mut String, placed: &Placed) -> Result<(), AllocError> {
    out.push_str(placed.node.as_str())?;
    if let Some(bad) = &placed.bad {
        out.push('!')?;
        put_scalars(out, bad.as_slice())?;
    }
    out.push(' ')
}

/// The nodes in the order of imports.
pub(crate) fn put_order(alloc: Global, nodes: &Nodes, out: &mut String) -> Result<(), AllocError> {
    let graph = ImportGraph::of(alloc, nodes)?;
    for placed in &import_order(alloc, nodes, &graph)? {
        put_placed(out, placed)?;
    }
    Ok(())
}

fn put_pair(out: &mut String, name: &[char], target: &[char]) -> Result<(), AllocError> {
    put_scalars(out, name)?;
    out.push('=')?;
    put_scalars(out, target)?;
    out.push(' ')
}

fn put_pairs(out: &mut String, pairs: &Aliases) -> Result<(), AllocError> {
    for place in 0..pairs.len() {
        if let Some((name, target)) = pairs.at(place) {
            put_pair(out, name, target)?;
        }
    }
    Ok(())
}

/// Each alias as `name=target`, then the first bad one behind `!`.
fn put_node_aliases(out: &mut String, aliases: &NodeAliases) -> Result<(), AllocError> {
    put_pairs(out, aliases.pairs.get())?;
    if let Some(bad) = &aliases.bad {
        out.push('!')?;
        put_scalars(out, bad.as_slice())?;
        out.push(' ')?;
    }
    out.push('|')
}

/// The aliases that are in force in each node.
fn all_aliases(alloc: Global, nodes: &Nodes) -> Result<Vec<NodeAliases>, AllocError> {
    let graph = ImportGraph::of(alloc, nodes)?;
    aliases_of(alloc, nodes, &graph)
}

/// The aliases that are in force in each node, by name.
pub(crate) fn put_aliases(
    alloc: Global,
    nodes: &Nodes,
    out: &mut String,
) -> Result<(), AllocError> {
    for aliases in &all_aliases(alloc, nodes)? {
        put_node_aliases(out, aliases)?;
    }
    Ok(())
}

/// How many commands of each node are wanted, by name.
pub(crate) fn put_wanted(alloc: Global, nodes: &Nodes, out: &mut String) -> Result<(), AllocError> {
    let graph = ImportGraph::of(alloc, nodes)?;
    put_numbers(out, &wanted_counts(alloc, nodes, &graph)?)
}

/// How many aliases there are, and the target of a name.
fn put_target(out: &mut String, aliases: &Aliases, name: &[char]) -> Result<(), AllocError> {
    let count = aliases.names().len();
    let size = if aliases.is_empty() { "empty" } else { "some" };
    write!(out, "{count} {size} ")?;
    match aliases.target_of(name) {
        Some(target) => put_scalars(out, target),
        None => out.push_str("none"),
    }
}

/// How many aliases are in force in the first node, and the target of a name.
pub(crate) fn put_first_target(
    alloc: Global,
    nodes: &Nodes,
    name: &str,
    out: &mut String,
) -> Result<(), Fault> {
    let all = all_aliases(alloc, nodes)?;
    let Some(first) = all.first() else {
        return Err(Fault::Line);
    };
    let name = scalars_of(alloc, name)?;
    Ok(put_target(out, first.pairs.get(), &name)?)
}

fn put_node(out: &mut String, node: &Node) -> Result<(), AllocError> {
    let entries = node.entries.get().as_slice();
    let count = entries.len();
    let wanted = wanted_prefix(entries);
    let required = if node.required { "required" } else { "" };
    write!(out, "{count} commands, {wanted} wanted, {required}")
}

/// What a copy of the first node has.
pub(crate) fn put_first_copied(nodes: &Nodes, out: &mut String) -> Result<(), Fault> {
    let Some((_, node)) = nodes.at(0) else {
        return Err(Fault::Line);
    };
    let copy = node.copy()?;
    Ok(put_node(out, &copy)?)
}
