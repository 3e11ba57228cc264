//! What an update tells, as values.

use exec_rules::Row;
use pide_base::{CommandId, NodeName};
use sqlite_items::Items;

/// A command with what it is assigned.
#[derive(Clone, Copy, Debug)]
pub struct ToldCommand {
    pub command: CommandId,
    pub row: Option<Row>,
}

/// A node whose rows are others than before.
#[derive(Debug, Drop)]
pub struct ToldNode {
    pub node: NodeName,
    /// Its commands, in the order of their places.
    pub commands: Items<ToldCommand>,
}
