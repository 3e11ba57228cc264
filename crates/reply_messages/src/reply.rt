//! Replies that lend what they tell.

use message_values::{Protocol, Refusal, Worker};
use pide_base::{CommandId, ExecId, NodeName, Part, VersionId};
use report_markup::Report;
use snapshots::Shown;

/// The executions that a version assigns to a command.
#[derive(Clone, Copy, Debug, PartialEq, Eq)]
pub enum Executions {
    /// None.
    Unassigned,
    /// Its evaluation.
    Evaluated { evaluation: ExecId },
    /// Its evaluation and its print.
    Printed { evaluation: ExecId, print: ExecId },
}

/// A command with its executions.
#[derive(Clone, Copy, Debug, PartialEq, Eq)]
pub struct AssignedRow {
    pub command: CommandId,
    pub executions: Executions,
}

/// A node with its commands, in order of place.
#[derive(Clone, Copy)]
pub struct AssignedNode<'a> {
    pub node: &'a NodeName,
    pub rows: &'a [AssignedRow],
}

/// Reports, each at its own range or at another one.
#[derive(Clone, Copy)]
pub enum Reports<'a> {
    Own(&'a [Report]),
    Shown(&'a [Shown<'a>]),
}

/// A reply. It lends what it tells.
#[derive(Clone, Copy)]
pub enum Reply<'a> {
    /// The nodes of a new version whose rows differ from those before it.
    Assign {
        version: VersionId,
        nodes: &'a [AssignedNode<'a>],
    },
    /// What is known of a node: the reports, at places of the text that was asked about; the
    /// executions with an unfinished part, rising; and whether edits were pending.
    Markup {
        version: VersionId,
        node: &'a NodeName,
        reports: Reports<'a>,
        pending: &'a [ExecId],
        outdated: bool,
    },
    /// The execution is cancelled.
    Cancelled {
        exec: ExecId,
    },
    /// The execution was finished, or cancelled before.
    Idle {
        exec: ExecId,
    },
    /// The versions that were removed, rising.
    Removed {
        versions: &'a [VersionId],
    },
    /// The version is settled; the executions in it that will never finish, rising.
    Settled {
        version: VersionId,
        stuck: &'a [ExecId],
    },
    /// The session goes by the protocol.
    Protocol {
        protocol: Protocol,
    },
    /// The message was refused.
    Refused {
        reason: Refusal,
    },
    /// The worker holds the part.
    Claimed {
        worker: Worker,
        part: Part,
    },
    /// The part is finished, with these reports, at places of the command's source.
    Report {
        part: Part,
        reports: Reports<'a>,
    },
    /// The part was given up.
    Dropped {
        part: Part,
    },
    /// A node of a build, with its reports.
    Built {
        node: &'a NodeName,
        reports: Reports<'a>,
    },
    /// How many nodes a build has, and how many reports of errors.
    Total {
        nodes: u64,
        errors: u64,
    },
}
