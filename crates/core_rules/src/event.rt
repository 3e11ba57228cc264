//! What happens to the document.

use doc_nodes::Nodes;
use exec_rules::Blobs;
use pide_base::{ExecId, Part, VersionId};
use sqlite_items::Items;

/// What happened to the document in one step.
#[derive(Drop)]
pub enum Event {
    /// The editor made a version of these nodes and blobs.
    Update {
        version: VersionId,
        nodes: Nodes,
        blobs: Blobs,
    },
    /// The editor asked to cancel the execution.
    Cancel {
        exec: ExecId,
    },
    /// The editor removed the versions.
    Remove {
        versions: Items<VersionId>,
    },
    /// The worker took the part.
    Claimed {
        who: u32,
        part: Part,
    },
    /// The worker finished the part that it held.
    Finished {
        who: u32,
        part: Part,
    },
    /// The worker let the part go that it held, without a result.
    Dropped {
        who: u32,
        part: Part,
    },
    /// Nothing is taken any more.
    Ended,
}
