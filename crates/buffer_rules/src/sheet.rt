//! What an editor has of a document.

use doc_nodes::{BlobName, Shared};
use pide_base::{NodeName, Range};
use shared_map::SharedMap;
use sqlite_items::Items;
use text_edits::Text;

/// What an editor has of a node.
#[derive(Debug, Drop)]
pub struct Sheet {
    /// The text, in scalars.
    pub text: Shared<Text>,
    /// Whether all commands are wanted, seen or not.
    pub required: bool,
    /// What is visible, in scalars of the text.
    pub ranges: Shared<Items<Range>>,
}

/// What an editor has: nodes and auxiliary blobs, by name.
#[derive(Drop)]
pub struct Document {
    pub sheets: SharedMap<NodeName, Sheet>,
    pub blobs: SharedMap<BlobName, Shared<Text>>,
}
