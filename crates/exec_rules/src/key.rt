//! What the assignment of a node rests on outside of the node.

use pide_base::ExecId;
use sqlite_items::Items;

/// What the last command of an import has.
#[derive(Clone, Copy, Debug)]
pub enum Last {
    /// The import has no command.
    Empty,
    /// The last command is not assigned.
    Open,
    /// Its evaluation.
    Made(ExecId),
}

/// What the assignment of a node rests on outside of the node.
#[derive(Debug, Drop)]
pub enum Key {
    /// Of an ordered node: what the last command of each import has, in the header's order.
    Lasts(Items<Last>),
    /// Of another node: its first bad import.
    BadImport(Items<char>),
}
