//! A node, from the state in which it begins.
ghost use Rattle.std.specs.Prelude.{◌≡◌, ℕ, [], length, IfOk};
ghost use Rattle.std.specs.List.{AllByRecursion};
ghost use Rattle.report_markup.specs.Sorting.{ordered_reports};
ghost use Rattle.buffer_rules.specs.Cuts.{command_ranges};
ghost use Rattle.buffer_rules.specs.Nodes.{ranges_in};
ghost use Rattle.core_rules.specs.Scratch.{final, run_node};
ghost use Rattle.node_check.specs.Walking.{LiesIn};
ghost use Rattle.node_check.specs.Nodes.{cut_under, reports_of, sheet_of};

use crate::commands::{NodeRun, run_commands};
use buffer_rules::ids_law;
use command_spans::Spans;
use doc_nodes::{Aliases, Node};
use editor_buffer::command_ranges;
use language::Language;
use pide_base::Range;
use sqlite_items::Items;
use std::alloc::{AllocError, Global};

/// The places of a text's commands, in its scalars, where these names are commands too.
pub fn command_places(
    alloc: Global,
    text: &[char],
    names: &[Items<char>],
) -> Result<Vec<Range>, AllocError>
    ensures { IfOk result (λ places. places.items ≡ command_ranges text.now names.now) }
{
    let spans = Spans::of(alloc, text, names)?;
    let places = command_ranges(alloc, &spans);
    drop(spans);
    places
}

/// Cuts the text of a node under these aliases, and checks its commands, the first of them in this
/// state, where there are no blobs: what they report, and the state that the node hands on.
pub fn check_node<L: Language>(
    alloc: Global,
    language: &L,
    node: &Node,
    aliases: &Aliases,
    begins: L::State,
) -> Result<NodeRun<L::State>, AllocError>
    requires { AllByRecursion (LiesIn (length node.now.text))
        (ranges_in (sheet_of node.now) aliases.now) }
    ensures reports { (next : ℕ) → IfOk result (λ run. run.reports.items ≡ ordered_reports
        (reports_of L.lang (cut_under node.now aliases.now next).entries
        (run_node L.lang (cut_under node.now aliases.now next) [] begins).commands)) }
    ensures behind { (next : ℕ) → IfOk result (λ run. run.behind
        ≡ final L.lang (run_node L.lang (cut_under node.now aliases.now next) [] begins)) }
{
    ids_law();
    let text = node.text.get().as_slice();
    let places = command_places(alloc, text, aliases.names())?;
    run_commands(alloc, language, text, &places, begins)
}
