//! What commands are assigned.

use crate::key::Key;
use doc_nodes::Shared;
use pide_base::ExecId;
use sqlite_items::Items;

/// What an assigned command has.
#[derive(Clone, Copy, Debug)]
pub struct Row {
    pub evaluation: ExecId,
    /// Where the command is visible.
    pub print: Option<ExecId>,
}

/// What is assigned to a node: a row for each of its first commands. The others have none.
#[derive(Debug, Drop)]
pub struct Assigned {
    pub key: Shared<Key>,
    pub rows: Items<Row>,
}
