//! The commands at places of a text, one after the other.
ghost use Rattle.std.specs.Prelude.{◌≡◌, ◌+◌, ◌<◌, ◌^◌, ℕ, length, map, IfOk, OnOk};
ghost use Rattle.std.specs.List.{sum_by, AllByRecursion};
ghost use Rattle.report_markup.specs.declared.report.Report.{Report};
ghost use Rattle.report_markup.specs.Ranges.{moved};
ghost use Rattle.language.specs.Laws.{LiesIn as ReportLiesIn};
ghost use Rattle.report_markup.specs.Sorting.{ordered_reports};
ghost use Rattle.node_check.specs.Walking.{LiesIn, reports_at, reports_from, state_at, state_from};

use crate::never::{fork, step};
use language::{Language, Made};
use outer_syntax::scalars;
use pide_base::Range;
use report_markup::{Report, moved_range, one_order};
use sqlite_items::Items;
use std::alloc::{AllocError, Global};

/// Adds the reports of a command's source, at the place where the source begins.
fn add_moved(
    all: &mut Vec<Report>,
    source: &[char],
    start: usize,
    reports: Items<Report>,
) -> Result<(), AllocError>
    requires lie { AllByRecursion (ReportLiesIn source.now) reports }
    requires room { start + length source.now < 2 ^ 64 }
    ensures { OnOk result ((measure : Report → ℕ) → sum_by measure all.new.items
        ≡ sum_by measure all.old.items + sum_by measure (map (moved start) reports)) }
{
    let mut reports = reports;
    'reports: while let Some(report) = reports.pop() {
        all.push(Report {
            range: moved_range(start, report.range),
            kind: report.kind,
            properties: report.properties,
            text: report.text,
        })?;
    }
    Ok(())
}

/// Works on the command at a place of the text: the state behind it is answered, and what it
/// reports is added.
fn run<L: Language>(
    alloc: Global,
    language: &L,
    text: &[char],
    range: Range,
    state: &L::State,
    all: &mut Vec<Report>,
) -> Result<L::State, AllocError>
    requires { LiesIn (length text.now) range }
    ensures state { IfOk result (λ after. after ≡ state_at L.lang text.now range state.now) }
    ensures reports { OnOk result ((measure : Report → ℕ) → sum_by measure all.new.items
        ≡ sum_by measure all.old.items
        + sum_by measure (reports_at L.lang text.now range state.now)) }
{
    let source = scalars(text, range);
    let made = step(alloc, language, source, state)?;
    if made.forks {
        let later = fork(alloc, language, source, state)?;
        add_moved(all, source, range.start, later)?;
    }
    add_moved(all, source, range.start, made.reports)?;
    Ok(made.state)
}

/// What comes of commands.
#[derive(Drop)]
pub struct NodeRun<S> {
    /// What they report, in report order; ranges count the text's scalars.
    pub reports: Vec<Report>,
    /// The state behind the last of them.
    pub behind: S,
}

/// Works on the commands at these places of the text, one after the other, the first of them in
/// this state, forks with the commands that they are of. There are no blobs.
pub fn run_commands<L: Language>(
    alloc: Global,
    language: &L,
    text: &[char],
    ranges: &[Range],
    begins: L::State,
) -> Result<NodeRun<L::State>, AllocError>
    requires { AllByRecursion (LiesIn (length text.now)) ranges.now }
    ensures reports { IfOk result (λ run. run.reports.items
        ≡ ordered_reports (reports_from L.lang text.now ranges.now begins)) }
    ensures behind { IfOk result (λ run. run.behind
        ≡ state_from L.lang text.now ranges.now begins) }
{
    one_order();
    let mut reports = Vec::new(alloc);
    let behind = walk(alloc, language, text, ranges, begins, &mut reports)?;
    reports.sort()?;
    Ok(NodeRun { reports, behind })
}

/// The state behind the commands at these places; what they report is added, in any order.
fn walk<L: Language>(
    alloc: Global,
    language: &L,
    text: &[char],
    ranges: &[Range],
    begins: L::State,
    all: &mut Vec<Report>,
) -> Result<L::State, AllocError>
    requires { AllByRecursion (LiesIn (length text.now)) ranges.now }
    ensures reports { OnOk result ((measure : Report → ℕ) → sum_by measure all.new.items
        ≡ sum_by measure all.old.items
        + sum_by measure (reports_from L.lang text.now ranges.now begins)) }
    ensures behind { IfOk result (λ state. state
        ≡ state_from L.lang text.now ranges.now begins) }
{
    let mut state = begins;
    let mut rest = ranges;
    'commands: while let [range, more @ ..] = rest {
        state = run(alloc, language, text, *range, &state, all)?;
        rest = more;
    }
    Ok(state)
}
