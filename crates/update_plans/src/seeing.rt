//! Evaluations that may be seen otherwise than before.
ghost use Rattle.std.specs.Prelude.{◌≡◌, ◌++◌, ◌∷◌, [], ℕ, true, false, if◌then◌else◌, IfOk, OnOk, List, map, flat_map, slice_get, Some};
ghost use Rattle.std.specs.List.{AllByRecursion};
ghost use Rattle.text_words.specs.Members.{has};
ghost use Rattle.doc_nodes.specs.declared.node.Node.{Node};
ghost use Rattle.exec_rules.specs.Assigning.{rows_in};
ghost use Rattle.core_rules.specs.Assigned.{is_visible};
ghost use Rattle.update_plans.specs.Beside.{Follows};
ghost use Rattle.update_plans.specs.Sights.{seen_of, seen_in};

use crate::beside::{is_marked, names_law, rows_in};
use crate::hiding::add_hidden;
use exec_rules::{Row, Version};
use pide_base::{ExecId, NodeName};
use std::alloc::{AllocError, Global};

/// An evaluation, and whether its command is visible.
#[derive(Clone, Copy, Debug)]
pub struct Sight {
    pub exec: ExecId,
    pub visible: bool,
}

/// The evaluations that may be seen otherwise than before, with whether their commands are visible
/// in the new version. Marks tell, in the order of the new names, which nodes have what they had:
/// these are not looked at.
pub fn sights(
    alloc: Global,
    before: &Version,
    now: &Version,
    standing: &[bool],
) -> Result<Vec<Sight>, AllocError>
    requires { Follows before.now now.now standing.now }
    ensures sees { IfOk result (λ all. AllByRecursion
        (λ sight. is_visible now.now sight.exec ≡ sight.visible) all.items) }
    ensures unseen { IfOk result (λ all. (e : ℕ)
        → has (map (λ sight. sight.exec) all.items) e ≡ false
        → is_visible now.now e ≡ is_visible before.now e) }
{
    names_law(&before.nodes);
    names_law(&now.nodes);
    let mut all = Vec::new(alloc);
    add_seen(&mut all, now, standing)?;
    add_hidden(&mut all, before, now, standing)?;
    Ok(all)
}

/// Adds the evaluations of the new version, in nodes that are not marked.
fn add_seen(all: &mut Vec<Sight>, now: &Version, standing: &[bool]) -> Result<(), AllocError>
    ensures { OnOk result (all.new.items ≡ all.old.items
        ++ flat_map (λ pair. seen_in standing.now now.now pair.0) now.now.nodes) }
{
    'nodes: for place in 0..now.nodes.len() {
        add_seen_at(all, now, standing, place)?;
    }
    Ok(())
}

/// Adds those of the node at the place.
fn add_seen_at(
    all: &mut Vec<Sight>,
    now: &Version,
    standing: &[bool],
    place: usize,
) -> Result<(), AllocError>
    ensures { (pair : List ℕ × Node) → slice_get now.now.nodes place ≡ Some pair
        → OnOk result (all.new.items
        ≡ all.old.items ++ seen_in standing.now now.now pair.0) }
{
    match now.nodes.at(place) {
        Some((name, _)) => add_seen_in(all, now, standing, name),
        None => Ok(()),
    }
}

/// Adds those of the node of this name.
fn add_seen_in(
    all: &mut Vec<Sight>,
    now: &Version,
    standing: &[bool],
    name: &NodeName,
) -> Result<(), AllocError>
    ensures { OnOk result (all.new.items
        ≡ all.old.items ++ seen_in standing.now now.now name.now) }
{
    if is_marked(standing, &now.nodes, name) {
        return Ok(());
    }
    add_evaluations(all, rows_in(now, name))
}

/// Adds the evaluations of these rows: a command is visible where it has a print.
fn add_evaluations(all: &mut Vec<Sight>, rows: &[Row]) -> Result<(), AllocError>
    ensures { OnOk result (all.new.items ≡ all.old.items ++ map seen_of rows.now) }
{
    'rows: for row in rows {
        all.push(Sight {
            exec: row.evaluation,
            visible: row.print.is_some(),
        })?;
    }
    Ok(())
}
