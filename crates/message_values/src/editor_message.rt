//! What an editor can ask.

use crate::item::{BlobChange, Item};
use crate::protocol::Protocol;
use crate::worker::Worker;
use pide_base::{ExecId, NodeName, VersionId};
use sqlite_items::Items;
use text_edits::{Edit, Text};

/// A message that has the shape of one of the editor's functions.
#[derive(Debug, Drop)]
pub enum EditorMessage {
    /// A new version after the newest: the items are made in order, then the blobs are changed.
    Update {
        version: VersionId,
        items: Items<Item>,
        blobs: Items<BlobChange>,
    },
    /// What is known of a node in the version, in the text that the edits make of the version's.
    Snapshot {
        version: VersionId,
        node: NodeName,
        edits: Items<Edit>,
    },
    /// That an execution is not worked on any more.
    Cancel {
        exec: ExecId,
    },
    /// That versions are forgotten.
    RemoveVersions {
        versions: Items<VersionId>,
    },
    /// To be answered once the version is settled.
    Settle {
        version: VersionId,
    },
    /// That the session goes by this protocol.
    Protocol {
        protocol: Protocol,
    },
    /// That a worker claims the first ready part.
    Claim {
        worker: Worker,
    },
    /// That a worker finishes the part that it holds.
    Finish {
        worker: Worker,
    },
    /// A theory of a build: the node with its text.
    Theory {
        node: NodeName,
        text: Text,
    },
}
