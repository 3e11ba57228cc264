//! Evaluations that are seen no more.
ghost use Rattle.std.specs.Prelude.{◌≡◌, ◌++◌, ℕ, OnOk, List, flat_map, slice_get, Some};
ghost use Rattle.doc_nodes.specs.declared.node.Node.{Node};
ghost use Rattle.exec_rules.specs.Assigning.{rows_in};
ghost use Rattle.update_plans.specs.Beside.{HaveStayed};
ghost use Rattle.update_plans.specs.Sights.{hidden_of, hidden};

use crate::beside::{is_marked, row_at, rows_in};
use crate::seeing::Sight;
use exec_rules::{Row, Version};
use pide_base::NodeName;
use std::alloc::AllocError;

/// Adds the evaluations of the version before that the new one has not: these are seen no more.
pub(crate) fn add_hidden(
    all: &mut Vec<Sight>,
    before: &Version,
    now: &Version,
    standing: &[bool],
) -> Result<(), AllocError>
    requires { HaveStayed before.now now.now standing.now }
    ensures { OnOk result (all.new.items ≡ all.old.items ++ flat_map
        (λ pair. hidden (rows_in before.now pair.0) (rows_in now.now pair.0))
        before.now.nodes) }
{
    'nodes: for place in 0..before.nodes.len() {
        add_hidden_at(all, before, now, standing, place)?;
    }
    Ok(())
}

/// Adds those of the node at the place.
fn add_hidden_at(
    all: &mut Vec<Sight>,
    before: &Version,
    now: &Version,
    standing: &[bool],
    place: usize,
) -> Result<(), AllocError>
    requires { HaveStayed before.now now.now standing.now }
    ensures { (pair : List ℕ × Node) → slice_get before.now.nodes place ≡ Some pair
        → OnOk result (all.new.items ≡ all.old.items
        ++ hidden (rows_in before.now pair.0) (rows_in now.now pair.0)) }
{
    match before.nodes.at(place) {
        Some((name, _)) => add_hidden_in(all, before, now, standing, name),
        None => Ok(()),
    }
}

/// Adds those of the node of this name.
fn add_hidden_in(
    all: &mut Vec<Sight>,
    before: &Version,
    now: &Version,
    standing: &[bool],
    name: &NodeName,
) -> Result<(), AllocError>
    requires { HaveStayed before.now now.now standing.now }
    ensures { OnOk result (all.new.items ≡ all.old.items
        ++ hidden (rows_in before.now name.now) (rows_in now.now name.now)) }
{
    if is_marked(standing, &now.nodes, name) {
        return Ok(());
    }
    add_rows_hidden(all, rows_in(before, name), rows_in(now, name))
}

/// Adds the evaluations of the rows that the rows at their places now have not.
fn add_rows_hidden(all: &mut Vec<Sight>, rows: &[Row], now: &[Row]) -> Result<(), AllocError>
    ensures { OnOk result (all.new.items ≡ all.old.items ++ hidden rows.now now.now) }
{
    'rows: for place in 0..rows.len() {
        add_hidden_of(all, &rows[place], row_at(now, place))?;
    }
    Ok(())
}

fn add_hidden_of(all: &mut Vec<Sight>, row: &Row, now: Option<Row>) -> Result<(), AllocError>
    ensures { OnOk result (all.new.items ≡ all.old.items ++ hidden_of row.now now) }
{
    if let Some(now) = now {
        if now.evaluation == row.evaluation {
            return Ok(());
        }
    }
    all.push(Sight {
        exec: row.evaluation,
        visible: false,
    })?;
    Ok(())
}
