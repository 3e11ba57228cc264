//! The document's crates, texts and bytes under scripts of calls, which it reads from its standard
//! input: the queue of tasks, the table of executions, the order of imports, aliases, wanted
//! commands, maps that keep their old versions, live versions, reports and their trees, snapshots,
//! places that count symbols, and what updates assign; edits, places, symbols, tokens, headers and
//! spans of texts; byte messages, YXML and values in it, what editors ask, and replies. A line is
//! answered by a line.
#![tactic(auto)]

mod assigned;
mod blobs;
mod documents;
mod drawn;
mod drawn_reports;
mod executions;
mod formats;
mod graphs;
mod limits;
mod listed;
mod maps;
mod nodes;
mod orders;
mod pasts;
mod queued;
mod readable;
mod reports;
mod shared;
mod symbol_numbers;
mod taken_snapshots;
mod text_calls;
mod texts;
mod trees;
mod versions;
mod walk;

use crate::documents::Documents;
use script_lines::answered;
use std::io;

fn main(rt: HostRuntime) -> io::Result<()> {
    let mut documents = Documents::new(rt.alloc())?;
    let done = answer_all(&rt, &mut documents);
    drop(documents);
    done
}

fn answer_all(rt: &HostRuntime, documents: &mut Documents) -> io::Result<()> {
    for line in rt.lines(rt.alloc()) {
        answer(rt, documents, line?.as_str())?;
    }
    Ok(())
}

fn answer(rt: &HostRuntime, documents: &mut Documents, line: &str) -> io::Result<()> {
    let answer = answered(rt.alloc(), documents, line)?;
    println!(rt; "{answer}")
}
