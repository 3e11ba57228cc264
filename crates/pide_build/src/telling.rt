//! What is told of a node that is checked.
ghost use Rattle.std.specs.Prelude.{◌≡◌, IfOk};
ghost use Rattle.pide_build.specs.declared.telling.BuiltNode.{BuiltNode};

use pide_base::NodeName;
use report_markup::Report;
use sqlite_items::Items;
use std::alloc::{AllocError, Global};

/// A node that is checked.
#[derive(Debug, Drop)]
pub struct BuiltNode {
    pub node: NodeName,
    /// What its commands report, in report order; ranges count the scalars of its text.
    pub reports: Items<Report>,
}

/// Tells of nodes that are checked. What is told is made where a node was checked, and its reports
/// are dropped there.
pub trait Telling {
    /// What is told of a node.
    type Told: Drop;

    /// It goes by the node's name and reports alone.
    ghost told: { BuiltNode → Self.Told };

    /// Tells of a node. It fails for want of memory.
    fn tell(&self, alloc: Global, built: BuiltNode) -> Result<Self::Told, AllocError>
        ensures { IfOk result (λ made. made ≡ told built) };
}

/// What comes of a node.
#[derive(Drop)]
pub struct Checked<M, S> {
    /// What is told of it.
    pub told: M,
    /// The state behind its last command.
    pub behind: S,
}
