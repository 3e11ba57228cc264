//! Counting what a session tells of the document.
ghost use Rattle.std.specs.Prelude.{◌≡◌, ◌++◌, ℕ, List, Some, IfOk, OnOk, flat_map, length, slice_get};
ghost use Rattle.std.specs.Option.{option_copied};
ghost use Rattle.report_markup.specs.declared.report.Report.{Report};
ghost use Rattle.doc_nodes.specs.declared.node.Node.{Node};
ghost use Rattle.core_tables.specs.Live.{version_of};
ghost use Rattle.exec_rules.specs.declared.version.Version.{Version};
ghost use Rattle.core_rules.specs.Assigned.{command_ids};
ghost use Rattle.made_document.specs.Summary.{summary};
ghost use Rattle.made_document.specs.Tallies.{IsTally};
ghost use Rattle.pide_program.specs.Answered.{Made};
ghost use Rattle.pide_program.specs.Told.{IsLive, shown_reports};

use crate::made::serving::List;
use core_tables::Live;
use doc_nodes::Nodes;
use exec_rules::Version;
use language::Language;
use made_document::{Summary, Tally, greatest_execution};
use pide_base::{NodeName, VersionId};
use session_rules::settled_law;
use std::alloc::AllocError;
use thread_serve::document_session_below::Session;

/// The version that is settled.
const LAST_VERSION: u64 = 2;

/// The live version of this id.
fn version_in(live: &[Live<Version>], id: VersionId) -> Option<&Version>
    ensures { option_copied result ≡ version_of live.now id }
{
    match live.iter().find(|one| one.id == id) {
        Some(one) => Some(one.version.get()),
        None => None,
    }
}

/// How many commands the node at a place has.
fn commands_at(nodes: &Nodes, place: usize) -> u64
    ensures { (pair : List ℕ × Node) → slice_get nodes.now place ≡ Some pair
        → result ≡ length pair.1.entries }
{
    match nodes.at(place) {
        Some((_, node)) => node.entries.get().len() as u64,
        None => 0,
    }
}

/// How many commands the nodes have. No memory is told where that is no number of 64 bits.
fn commands_of(nodes: &Nodes) -> Result<u64, AllocError>
    ensures { IfOk result (λ count. count ≡ length (command_ids nodes.now)) }
{
    let mut count: u64 = 0;
    'nodes: for place in 0..nodes.len() {
        let Some(more) = count.checked_add(commands_at(nodes, place)) else {
            return Err(AllocError);
        };
        count = more;
    }
    Ok(count)
}

/// Counts what is shown of a node of a live version.
fn add_node<L: Language>(
    tally: &mut Tally,
    session: &Session<L, List>,
    id: VersionId,
    name: &NodeName,
) -> Result<(), AllocError>
    ensures { OnOk result ((all : List Report) (version : Version)
        → IsLive L.lang session.now id version → IsTally tally.old all
        → IsTally tally.new (all ++ shown_reports L.lang session.now version name.now)) }
{
    match session.results(id, name)? {
        Some(results) => tally.add_parts(results.parts.as_slice()),
        None => Ok(()),
    }
}

/// So of the node at a place of these.
fn add_node_at<L: Language>(
    tally: &mut Tally,
    session: &Session<L, List>,
    id: VersionId,
    nodes: &Nodes,
    place: usize,
) -> Result<(), AllocError>
    ensures { OnOk result ((all : List Report) (version : Version) (pair : List ℕ × Node)
        → slice_get nodes.now place ≡ Some pair → IsLive L.lang session.now id version
        → IsTally tally.old all
        → IsTally tally.new (all ++ shown_reports L.lang session.now version pair.0)) }
{
    match nodes.at(place) {
        Some((name, _)) => add_node(tally, session, id, name),
        None => Ok(()),
    }
}

/// Counts what is shown of all nodes of a live version, which are these.
fn tally_of<L: Language>(
    session: &Session<L, List>,
    id: VersionId,
    nodes: &Nodes,
) -> Result<Tally, AllocError>
    ensures { IfOk result (λ tally. (version : Version) → IsLive L.lang session.now id version
        → IsTally tally (flat_map (λ pair. shown_reports L.lang session.now version pair.0)
        nodes.now)) }
{
    let mut tally = Tally::new();
    'nodes: for place in 0..nodes.len() {
        add_node_at(&mut tally, session, id, nodes, place)?;
    }
    Ok(tally)
}

/// The summary of a session that has answered the messages that make a document, where the updates
/// were not refused.
pub(crate) fn summary_of<L: Language>(
    session: &Session<L, List>,
) -> Result<Option<Summary>, AllocError>
    ensures { (count workers : ℕ) → Made L.lang count workers session.now
        → IfOk result (λ s. s ≡ summary L.lang count) }
{
    settled_law::<L>();
    let live = session.live();
    let id = VersionId::numbered(LAST_VERSION);
    let Some(version) = version_in(live, id) else {
        return Ok(None);
    };
    let tally = tally_of(session, id, &version.nodes)?;
    let commands = commands_of(&version.nodes)?;
    Ok(Some(Summary {
        nodes: version.nodes.len() as u64,
        commands,
        executions: greatest_execution(live),
        reports: tally.reports,
        errors: tally.errors,
    }))
}
