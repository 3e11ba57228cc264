//! What an update does to nodes and blobs.

use doc_nodes::BlobName;
use pide_base::{NodeName, Range};
use sqlite_items::Items;
use text_edits::{Edit, Text};

/// What an editor shows of a node: whether all of it is required, and the ranges that are visible,
/// in scalars of the text after the edits. A range may be any two numbers here.
#[derive(Debug, Drop)]
pub struct Perspective {
    pub required: bool,
    pub ranges: Items<Range>,
}

/// What becomes of a node.
#[derive(Debug, Drop)]
pub enum Change {
    /// Its text is edited, by one edit after the other, and then its perspective is replaced, where
    /// there is one.
    Edit {
        edits: Items<Edit>,
        perspective: Option<Perspective>,
    },
    /// It is no node any more.
    Close,
}

/// One item of an update.
#[derive(Debug, Drop)]
pub struct Item {
    pub node: NodeName,
    pub change: Change,
}

/// What becomes of a blob: its new text, or None where it is removed.
#[derive(Debug, Drop)]
pub struct BlobChange {
    pub name: BlobName,
    pub text: Option<Text>,
}
