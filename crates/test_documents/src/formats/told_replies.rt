//! Replies that tell lists and reports, as they are written (`reply_messages`).
use crate::formats::replies::{Written, lends_nothing, put};
use joined_results::both;
use pide_base::{CommandId, ExecId, NodeName, Part, PartKind, Range, VersionId};
use reply_messages::{AssignedNode, AssignedRow, Executions, Reply, Reports, write};
use report_markup::{PlainText, Property, PropertyKey, Report, ReportKind};
use script_lines::{Answer, Fault};
use snapshots::Shown;
use sqlite_items::Items;
use std::alloc::{AllocError, Global};

/// Answers how a reply is written: that nothing was reported of the node A, that its first command
/// has the executions 1 and 3 and its second none, that the version 1 was removed, or is settled but
/// for 1 and 3, a report of the theory A at its own range, and at another one.
pub(crate) fn answer(alloc: Global, out: &mut String, verb: &str) -> Answer {
    match verb {
        "built" | "assign" => of_node(alloc, out, verb, node_name(alloc)),
        "removed" => removed(alloc, out),
        "settled" => settled(alloc, out),
        "reported" => reported(alloc, out, theory_report(alloc)),
        "markup" => markup(alloc, out, both(node_name(alloc), theory_report(alloc))),
        _ => Err(Fault::Line),
    }
}

/// The node A.
fn node_name(alloc: Global) -> Result<NodeName, AllocError> {
    match NodeName::new(String::from_str(alloc, "A")?) {
        Ok(name) => Ok(name),
        Err(_) => Err(AllocError),
    }
}

/// Answers how a reply of a node is written.
fn of_node(
    alloc: Global,
    out: &mut String,
    verb: &str,
    name: Result<NodeName, AllocError>,
) -> Answer {
    let name = name?;
    let answer = match verb {
        "built" => put(out, built(alloc, &name)),
        _ => assign(alloc, out, &name),
    };
    drop(name);
    answer
}

fn built(alloc: Global, node: &NodeName) -> Written {
    if !lends_nothing(&[], &[], &[], Reports::Own(&[])) {
        return Err(AllocError);
    }
    let reports = Reports::Own(&[]);
    write(alloc, &Reply::Built { node, reports })
}

/// The executions 1 and 3 of the command 1, and none of the command 2.
fn rows() -> Option<[AssignedRow; 2]> {
    let printed = Executions::Printed {
        evaluation: ExecId::new(1)?,
        print: ExecId::new(3)?,
    };
    let first = AssignedRow {
        command: CommandId::new(1)?,
        executions: printed,
    };
    let second = AssignedRow {
        command: CommandId::new(2)?,
        executions: Executions::Unassigned,
    };
    Some([first, second])
}

fn assign(alloc: Global, out: &mut String, node: &NodeName) -> Answer {
    if !lends_nothing(&[], &[], &[], Reports::Own(&[])) {
        return Err(Fault::Line);
    }
    let (Some(version), Some(rows)) = (VersionId::new(1), rows()) else {
        return Err(Fault::Line);
    };
    let nodes: &[AssignedNode<'_>] = &[AssignedNode { node, rows: &rows }];
    put(out, write(alloc, &Reply::Assign { version, nodes }))
}

fn removed(alloc: Global, out: &mut String) -> Answer {
    if !lends_nothing(&[], &[], &[], Reports::Own(&[])) {
        return Err(Fault::Line);
    }
    let Some(version) = VersionId::new(1) else {
        return Err(Fault::Line);
    };
    let versions: &[VersionId] = &[version];
    put(out, write(alloc, &Reply::Removed { versions }))
}

fn settled(alloc: Global, out: &mut String) -> Answer {
    if !lends_nothing(&[], &[], &[], Reports::Own(&[])) {
        return Err(Fault::Line);
    }
    let (Some(version), Some(first), Some(second)) = (
        VersionId::new(1),
        ExecId::new(1),
        ExecId::new(3),
    ) else {
        return Err(Fault::Line);
    };
    let stuck: &[ExecId] = &[first, second];
    put(out, write(alloc, &Reply::Settled { version, stuck }))
}

/// The name of a theory as a property.
fn name_property(alloc: Global) -> Result<Property, AllocError> {
    Ok(Property {
        key: PropertyKey::Name,
        value: PlainText::from_str(alloc, "A")?,
    })
}

/// The report of the name of a theory.
fn theory_report(alloc: Global) -> Result<Report, AllocError> {
    let mut properties = Items::new(alloc);
    properties.push(name_property(alloc)?)?;
    Ok(Report {
        range: Range { start: 7, stop: 8 },
        kind: ReportKind::Theory,
        properties,
        text: PlainText::empty(),
    })
}

fn reported(alloc: Global, out: &mut String, report: Result<Report, AllocError>) -> Answer {
    let own = [report?];
    let written = own_reports(alloc, &own);
    drop(own);
    put(out, written)
}

/// How the reports of the evaluation of the execution 2 are written.
fn own_reports(alloc: Global, own: &[Report]) -> Written {
    if !lends_nothing(&[], &[], &[], Reports::Own(&[])) {
        return Err(AllocError);
    }
    let Some(exec) = ExecId::new(2) else {
        return Err(AllocError);
    };
    let part = Part {
        exec,
        kind: PartKind::Eval,
    };
    let reports = Reports::Own(own);
    write(alloc, &Reply::Report { part, reports })
}

/// The report at another range, with the execution 2 pending.
fn markup(alloc: Global, out: &mut String, both: Result<(NodeName, Report), AllocError>) -> Answer {
    let (name, report) = both?;
    let written = marked(alloc, &name, &report);
    drop((name, report));
    put(out, written)
}

/// The same, of the name and the report.
fn marked<'x>(alloc: Global, node: &'x NodeName, report: &'x Report) -> Written {
    if !lends_nothing(&[], &[], &[], Reports::Own(&[])) {
        return Err(AllocError);
    }
    let (Some(version), Some(exec)) = (VersionId::new(1), ExecId::new(2)) else {
        return Err(AllocError);
    };
    let shown: &[Shown<'x>] = &[Shown {
        range: Range { start: 9, stop: 10 },
        report,
    }];
    let pending: &[ExecId] = &[exec];
    let markup = Reply::Markup {
        version,
        node,
        reports: Reports::Shown(shown),
        pending,
        outdated: true,
    };
    write(alloc, &markup)
}
