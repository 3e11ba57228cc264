//! Executions that a new version has no more.
ghost use Rattle.std.specs.Prelude.{◌≡◌, ◌&&◌, ◌++◌, ◌∷◌, [], ℕ, not, if◌then◌else◌, IfOk, OnOk, List, slice_get, Some};
ghost use Rattle.text_words.specs.Members.{has};
ghost use Rattle.doc_nodes.specs.declared.node.Node.{Node};
ghost use Rattle.exec_rules.specs.Assigning.{rows_in};
ghost use Rattle.exec_assign.specs.Told.{told_row};
ghost use Rattle.core_rules.specs.Assigned.{assigns};
ghost use Rattle.update_plans.specs.Beside.{HaveStayed, Follows};
ghost use Rattle.update_plans.specs.Rows.{beside, lost_of, lost};

use crate::beside::{is_marked, row_at, rows_in};
use exec_rules::{Row, Version};
use pide_base::{ExecId, NodeName};
use std::alloc::{AllocError, Global};

/// The executions that the version before assigns and the new one does not. Marks tell, in the
/// order of the new names, which nodes have what they had: these are not looked at.
pub fn dropped(
    alloc: Global,
    before: &Version,
    now: &Version,
    standing: &[bool],
) -> Result<Vec<ExecId>, AllocError>
    requires { Follows before.now now.now standing.now }
    ensures { IfOk result (λ all. (e : ℕ)
        → has all.items e ≡ (assigns before.now e && not (assigns now.now e))) }
{
    let mut all = Vec::new(alloc);
    'nodes: for place in 0..before.nodes.len() {
        add_lost_at(&mut all, before, now, standing, place)?;
    }
    Ok(all)
}

/// Adds those of the node at the place.
fn add_lost_at(
    all: &mut Vec<ExecId>,
    before: &Version,
    now: &Version,
    standing: &[bool],
    place: usize,
) -> Result<(), AllocError>
    requires { HaveStayed before.now now.now standing.now }
    ensures { (pair : List ℕ × Node) → slice_get before.now.nodes place ≡ Some pair
        → OnOk result (all.new.items ≡ all.old.items
        ++ lost (rows_in before.now pair.0) (rows_in now.now pair.0)) }
{
    match before.nodes.at(place) {
        Some((name, _)) => add_lost_in(all, before, now, standing, name),
        None => Ok(()),
    }
}

/// Adds those of the node of this name.
fn add_lost_in(
    all: &mut Vec<ExecId>,
    before: &Version,
    now: &Version,
    standing: &[bool],
    name: &NodeName,
) -> Result<(), AllocError>
    requires { HaveStayed before.now now.now standing.now }
    ensures { OnOk result (all.new.items ≡ all.old.items
        ++ lost (rows_in before.now name.now) (rows_in now.now name.now)) }
{
    if is_marked(standing, &now.nodes, name) {
        return Ok(());
    }
    add_lost(all, rows_in(before, name), rows_in(now, name))
}

/// Adds the executions of the rows that the rows at their places now have not.
fn add_lost(all: &mut Vec<ExecId>, rows: &[Row], now: &[Row]) -> Result<(), AllocError>
    ensures { OnOk result (all.new.items ≡ all.old.items ++ lost rows.now now.now) }
{
    'rows: for place in 0..rows.len() {
        add_lost_of(all, &rows[place], row_at(now, place))?;
    }
    Ok(())
}

fn add_lost_of(all: &mut Vec<ExecId>, row: &Row, now: Option<Row>) -> Result<(), AllocError>
    ensures { OnOk result (all.new.items ≡ all.old.items ++ lost_of row.now now) }
{
    add_unless(all, row.evaluation, has_it(&now, row.evaluation))?;
    match row.print {
        Some(print) => add_unless(all, print, has_it(&now, print)),
        None => Ok(()),
    }
}

/// Whether the row has the execution.
fn has_it(row: &Option<Row>, exec: ExecId) -> bool
    ensures { result ≡ has (told_row row.now) exec }
{
    match row {
        Some(row) => row.evaluation == exec || row.print == Some(exec),
        None => false,
    }
}

fn add_unless(all: &mut Vec<ExecId>, exec: ExecId, is_there: bool) -> Result<(), AllocError>
    ensures { OnOk result (all.new.items
        ≡ all.old.items ++ (if not is_there then exec ∷ [] else [])) }
{
    if is_there {
        return Ok(());
    }
    all.push(exec)?;
    Ok(())
}
