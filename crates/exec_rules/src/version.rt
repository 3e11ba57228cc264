//! Versions with what is assigned in them.

use crate::row::Assigned;
use doc_nodes::text_edits_below::Text;
use doc_nodes::{BlobName, Nodes, Shared};
use shared_map::SharedMap;
use sqlite_items::Items;

/// The auxiliary blobs of a version, by name.
pub type Blobs = SharedMap<BlobName, Shared<Text>>;

/// A version of the document, with what is assigned in it.
#[derive(Drop)]
pub struct Version {
    pub nodes: Nodes,
    pub blobs: Blobs,
    /// What each node is assigned, in the order of names.
    pub assigned: Items<Shared<Assigned>>,
}
