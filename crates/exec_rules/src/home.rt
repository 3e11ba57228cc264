//! What executions go by.

use crate::key::Key;
use doc_nodes::text_edits_below::Text;
use doc_nodes::{NodeAliases, Shared};
use pide_base::{ExecId, NodeName};
use sqlite_items::Items;

/// What the first command of a node goes by, beside its own source.
#[derive(Debug, Drop)]
pub struct Head {
    pub node: NodeName,
    /// The imports of the header, in its order.
    pub imports: Shared<Items<Items<char>>>,
    /// The aliases that are in force in the node.
    pub aliases: NodeAliases,
    pub key: Shared<Key>,
}

/// What an execution takes up.
#[derive(Debug, Drop)]
pub enum Input {
    /// The first evaluation of a node: how the node begins.
    First(Shared<Head>),
    /// Another evaluation: the one before it.
    Next(ExecId),
    /// A print: the evaluation of its command.
    Print(ExecId),
}

/// What an execution goes by: whatever is not told here makes no difference to it.
#[derive(Debug, Drop)]
pub struct Home {
    /// The command's source, in scalars.
    pub source: Shared<Text>,
    /// The text of the blob that the command asks for, where both are there.
    pub blob: Option<Shared<Text>>,
    pub input: Input,
}
