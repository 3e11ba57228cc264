//! How the commands of one node are cut.
ghost use Rattle.std.specs.Prelude.{◌≡◌, ◌+◌, ◌<◌, ◌≤◌, map, IsTrue, IfOk, MatchOption};
ghost use Rattle.pide_base.specs.Ids.{id_end};
ghost use Rattle.command_spans.specs.CutTexts.{cut};
ghost use Rattle.buffer_rules.specs.Nodes.{uncut};
ghost use Rattle.editor_buffer.specs.Commands.{commands_in, AskUnder};
ghost use Rattle.editor_buffer.specs.Standing.{bare};
ghost use Rattle.editor_buffer.specs.CutNodes.{GivesCut};

use crate::command_places::command_ranges;
use crate::entries::entries_of;
use crate::fault::PrepareError;
use crate::old::OldCommands;
use crate::runs::kept_runs;
use crate::source::sources;
use buffer_rules::Sheet;
use command_spans::Spans;
use doc_nodes::{Aliases, Entry, Node, Shared};
use joined_results::both;
use message_values::Refusal;
use pide_base::ID_END;
use sqlite_items::Items;
use std::alloc::{AllocError, Global};

/// A node with its commands, and the next id after them.
#[derive(Drop)]
pub(crate) struct CutNode {
    pub(crate) node: Node,
    pub(crate) next: u64,
}

/// The commands in memory that can be shared.
fn shared(alloc: Global, entries: Items<Entry>) -> Result<Shared<Items<Entry>>, AllocError>
    ensures { IfOk result (λ shared. shared ≡ entries) }
{
    match Shared::new(alloc, entries) {
        Ok(shared) => Ok(shared),
        Err(_) => Err(AllocError),
    }
}

/// The node with these commands.
fn with_entries(alloc: Global, node: &Node, entries: Items<Entry>) -> Result<Node, AllocError>
    ensures { IfOk result (λ made. made ≡ record node.now { entries = entries }) }
{
    let ((text, entries), (imports, keywords)) = both(
        both(node.text.copy(), shared(alloc, entries)),
        both(node.imports.copy(), node.keywords.copy()),
    )?;
    Ok(Node {
        text,
        entries,
        required: node.required,
        imports,
        keywords,
    })
}

/// The next id after so many new ones, unless they pass the last.
fn next_after(next: u64, fresh: usize) -> Option<u64>
    requires { next ≤ id_end }
    ensures { MatchOption result (id_end < next + fresh)
        (λ after. (after ≡ next + fresh) × (after ≤ id_end)) }
{
    let fresh = fresh as u64;
    if ID_END - next < fresh {
        return None;
    }
    Some(next + fresh)
}

/// The node of a sheet, cut under aliases, whose spans are these; its commands keep the ids that
/// they had, or have the next ones. `Limit` comes where these pass the last id.
pub(crate) fn cut(
    alloc: Global,
    sheet: &Sheet,
    node: &Node,
    spans: &Spans,
    aliases: &Aliases,
    old: &OldCommands,
    next: u64,
) -> Result<CutNode, PrepareError>
    requires node { bare node.now ≡ uncut sheet.now }
    requires spans { spans.now ≡ cut sheet.now.text (map (λ pair. pair.0) aliases.now) }
    requires asked { IsTrue old.now.same_aliases
        → AskUnder aliases.now old.now.text.now old.now.entries.now }
    requires first { 1 ≤ next }
    requires last { next ≤ id_end }
    ensures { GivesCut sheet.now aliases.now
        (commands_in old.now.text.now old.now.entries.now) next result }
{
    let ranges = command_ranges(alloc, spans)?;
    let before = old.sources(alloc)?;
    let now = sources(alloc, sheet.text.get().as_slice(), &ranges)?;
    let kept = kept_runs(&before, &now);
    drop(before);
    drop(now);
    let fresh = ranges.len() - kept.front() - kept.back();
    let Some(after) = next_after(next, fresh) else {
        drop(ranges);
        return Err(PrepareError::Refused(Refusal::Limit));
    };
    let entries = entries_of(alloc, sheet, aliases, old, &ranges, &kept, next)?;
    drop(ranges);
    Ok(CutNode {
        node: with_entries(alloc, node, entries)?,
        next: after,
    })
}
