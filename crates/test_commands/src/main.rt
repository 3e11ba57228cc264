//! Commands of the command language, each at a place that the ones before it reach: lines tell the
//! commands, and lines answer what is told of them. They are examples for other implementations
//! too: `docs/FORMATS.md` tells the form.
#![tactic(auto)]

mod command;
mod lines;
mod nodes;
mod parts;

use language::Language;
use lines::{Transcript, answer_line};
use std::io;
use toplevel::Isar;

fn main(rt: HostRuntime) -> io::Result<()> {
    answer_lines(&rt, &Isar)
}

/// Answers each line of the input, by this language.
fn answer_lines<L: Language>(rt: &HostRuntime, lang: &L) -> io::Result<()> {
    let alloc = rt.alloc();
    let mut transcript = Transcript::new(alloc, lang)?;
    for line in rt.lines(alloc) {
        let answer = answer_line(alloc, lang, &mut transcript, line?.as_str())?;
        print!(rt; "{answer}")?;
    }
    Ok(())
}
