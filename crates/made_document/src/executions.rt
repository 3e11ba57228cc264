//! The greatest execution.
ghost use Rattle.std.specs.Prelude.{◌≡◌, flat_map};
ghost use Rattle.exec_rules.specs.Assigning.{greater};
ghost use Rattle.exec_rules.specs.Listed.{executions};
ghost use Rattle.core_rules.specs.Assigned.{executions_of};
ghost use Rattle.core_rules.specs.Doc.{greatest};
ghost use Rattle.made_document.specs.Summary.{greatest_execution};

use core_tables::Live;
use exec_rules::{Row, Version};
use pide_base::ExecId;

/// The greater of a number and an execution's.
fn greater(most: u64, exec: ExecId) -> u64
    ensures { result ≡ greater most exec }
{
    if most < exec.number() {
        exec.number()
    } else {
        most
    }
}

/// The greatest of a number and those of a row's executions.
fn greatest_of(most: u64, row: &Row) -> u64
    ensures { result ≡ greatest most (executions row.now) }
{
    let most = greater(most, row.evaluation);
    match row.print {
        Some(print) => greater(most, print),
        None => most,
    }
}

/// The greatest of a number and those of the rows' executions.
#[tactic(auto, using(crate::proofs::Greatest::greatest_more))]
fn greatest_in(most: u64, rows: &[Row]) -> u64
    ensures { result ≡ greatest most (flat_map executions rows.now) }
{
    let mut found = most;
    'rows: for row in rows {
        found = greatest_of(found, row);
    }
    found
}

/// The greatest of a number and those of the executions that a version assigns.
#[tactic(auto, using(crate::proofs::Greatest::rows_more))]
fn greatest_assigned(most: u64, version: &Version) -> u64
    ensures { result ≡ greatest most (executions_of version.now) }
{
    let mut found = most;
    'nodes: for assigned in version.assigned.as_slice() {
        found = greatest_in(found, assigned.get().rows.as_slice());
    }
    found
}

/// The greatest execution that one of these versions assigns, 0 where they assign none.
#[tactic(auto, using(crate::proofs::Greatest::greatest_more))]
pub fn greatest_execution(live: &[Live<Version>]) -> u64
    ensures { result ≡ greatest_execution live.now }
{
    let mut found = 0;
    'versions: for one in live {
        found = greatest_assigned(found, one.version.get());
    }
    found
}
