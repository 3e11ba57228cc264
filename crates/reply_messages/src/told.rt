//! What replies tell.

use message_values::{Protocol, Refusal, Worker};
use pide_base::{CommandId, ExecId, NodeName, Part, VersionId};
use report_markup::Report;
use sqlite_items::Items;

/// A command with its executions: none, its evaluation, or that and a print.
#[derive(Debug, Drop)]
pub struct CommandRow {
    pub command: CommandId,
    pub executions: Items<ExecId>,
}

/// A node with its commands, in order of place.
#[derive(Debug, Drop)]
pub struct NodeRows {
    pub node: NodeName,
    pub rows: Items<CommandRow>,
}

/// What a reply tells. Each kind owns what the `Reply` of its name lends.
#[derive(Debug, Drop)]
pub enum Told {
    Assign {
        version: VersionId,
        nodes: Items<NodeRows>,
    },
    Markup {
        version: VersionId,
        node: NodeName,
        reports: Items<Report>,
        pending: Items<ExecId>,
        outdated: bool,
    },
    Cancelled {
        exec: ExecId,
    },
    Idle {
        exec: ExecId,
    },
    Removed {
        versions: Items<VersionId>,
    },
    Settled {
        version: VersionId,
        stuck: Items<ExecId>,
    },
    Protocol {
        protocol: Protocol,
    },
    Refused {
        reason: Refusal,
    },
    Claimed {
        worker: Worker,
        part: Part,
    },
    Report {
        part: Part,
        reports: Items<Report>,
    },
    Dropped {
        part: Part,
    },
    Built {
        node: NodeName,
        reports: Items<Report>,
    },
    Total {
        nodes: u64,
        errors: u64,
    },
}
