//! A history as lines.
use pide_base::{Part, PartKind};
use reply_outbox::Item;
use session_rules::{Entry, Service};
use std::alloc::{AllocError, Global};

/// The entries of a history, the oldest first.
#[derive(Drop)]
pub(crate) struct History {
    /// How many there are.
    pub(crate) entries: u64,
    /// A line for each.
    pub(crate) lines: String,
}

/// The history that stands in such a list.
pub(crate) fn history_of(
    alloc: Global,
    items: &[Item<Service, Entry>],
) -> Result<History, AllocError> {
    let mut history = History {
        entries: 0,
        lines: String::new(alloc),
    };
    add_items(alloc, &mut history, items)?;
    Ok(history)
}

fn add_items(
    alloc: Global,
    history: &mut History,
    items: &[Item<Service, Entry>],
) -> Result<(), AllocError> {
    for item in items {
        if let Item::Made(entry) = item {
            add_entry(alloc, &mut history.lines, entry)?;
            history.entries = history.entries.saturating_add(1);
        }
    }
    Ok(())
}

fn add_entry(alloc: Global, answer: &mut String, entry: &Entry) -> Result<(), AllocError> {
    match entry {
        Entry::Call(_) => answer.push_str("entry call\n"),
        Entry::Claimed { who, part } => add_work(alloc, answer, "claimed", *who, *part),
        Entry::Finished { who, part } => add_work(alloc, answer, "finished", *who, *part),
        Entry::Dropped { who, part } => add_work(alloc, answer, "dropped", *who, *part),
        Entry::Ended => answer.push_str("entry ended\n"),
    }
}

/// Adds what a worker did with a part of an execution.
fn add_work(
    alloc: Global,
    answer: &mut String,
    done: &str,
    who: u32,
    part: Part,
) -> Result<(), AllocError> {
    let kind = match part.kind {
        PartKind::Eval => "eval",
        PartKind::Fork => "fork",
        PartKind::Print => "print",
    };
    let exec = part.exec.number();
    let line = format!(in alloc; "entry {done} {who} {exec} {kind}\n")?;
    answer.push_str(line.as_str())
}
