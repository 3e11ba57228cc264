//! The editor's document and the core behind it under scripts of calls, which it reads from its
//! standard input: what updates of the editor's buffer come to, what the core assigns, what comes
//! of claims, cancellations and removals over a small language, all orders of two workers on a
//! small document, and jobs. What is shown is compared with a check from nothing. An editor's
//! mirror is under scripts as well, or a client's loop over a stored exchange, as
//! `examples/client-loop.turns` has one. A line is answered by a line.
#![tactic(auto)]

mod asking;
mod buffers;
mod desk;
mod editor;
mod jobs;
mod laws;
mod lengths;
mod long_texts;
mod mirror;
mod open_nodes;
mod orders;
mod parity;
mod plain;
mod plain_buffer;
mod running;
mod sharing;
mod subjects;
mod table;
mod tally;
mod telling;
mod walk;
mod whole_reports;

use crate::subjects::Subjects;
use script_lines::answered;
use std::io;

fn main(rt: HostRuntime) -> io::Result<()> {
    let mut subjects = Subjects::new(rt.alloc())?;
    let done = answer_all(&rt, &mut subjects);
    drop(subjects);
    done
}

fn answer_all(rt: &HostRuntime, subjects: &mut Subjects) -> io::Result<()> {
    for line in rt.lines(rt.alloc()) {
        answer(rt, subjects, line?.as_str())?;
    }
    Ok(())
}

fn answer(rt: &HostRuntime, subjects: &mut Subjects, line: &str) -> io::Result<()> {
    let answer = answered(rt.alloc(), subjects, line)?;
    println!(rt; "{answer}")
}
