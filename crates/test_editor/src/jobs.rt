//! What comes of jobs over the language of two states: each part, from each input, with and without
//! a blob, and stopped. A job is told by its part and by words as `state=true`, `imports=2`, `bad`,
//! `blob` and `stop=1`.
use crate::asking::named;
use crate::parity::Parity;
use crate::sharing::shared;
use core_jobs::{Done, Input, Job, Ran};
use doc_nodes::{Aliases, NodeAliases, Shared};
use exec_rules::{Head, Key};
use joined_results::both;
use language::{Imported, Imports};
use pide_base::{ExecId, Part, PartKind};
use pide_io::NthStop;
use report_markup::Report;
use script_lines::{Fault, joined, number, place};
use sqlite_items::Items;
use std::alloc::{AllocError, Global};
use text_edits::Text;

/// What a job takes up.
#[derive(Clone, Copy)]
enum Taken {
    State(bool),
    /// The beginning of a node with so many imports.
    Imports(usize),
    /// The beginning of a node with a bad import.
    BadImport,
}

/// A job that is asked for. Its stop answers yes at the nth question.
#[derive(Clone, Copy)]
struct Asked {
    kind: PartKind,
    taken: Taken,
    has_blob: bool,
    nth: u64,
}

fn kind_of(word: &str) -> Result<PartKind, Fault> {
    match word {
        "eval" => Ok(PartKind::Eval),
        "fork" => Ok(PartKind::Fork),
        "print" => Ok(PartKind::Print),
        _ => Err(Fault::Line),
    }
}

fn kind_word(kind: PartKind) -> &'static str {
    match kind {
        PartKind::Eval => "eval",
        PartKind::Fork => "fork",
        PartKind::Print => "print",
    }
}

fn take_in(asked: &mut Asked, word: &str) -> Result<(), Fault> {
    let (key, value) = word.split_once('=').unwrap_or((word, ""));
    match key {
        "state" => asked.taken = Taken::State(value == "true"),
        "imports" => asked.taken = Taken::Imports(place(value)?),
        "bad" => asked.taken = Taken::BadImport,
        "blob" => asked.has_blob = true,
        "stop" => asked.nth = number(value)?,
        _ => return Err(Fault::Line),
    }
    Ok(())
}

fn asked_of(words: &[&str]) -> Result<Asked, Fault> {
    let [kind, words @ ..] = words else {
        return Err(Fault::Line);
    };
    let mut asked = Asked {
        kind: kind_of(*kind)?,
        taken: Taken::Imports(0),
        has_blob: false,
        nth: 0,
    };
    for word in words {
        take_in(&mut asked, *word)?;
    }
    Ok(asked)
}

fn text(alloc: Global, spelling: &str) -> Result<Shared<Text>, AllocError> {
    shared(alloc, Text::from_str(alloc, spelling)?)
}

fn aliases(alloc: Global) -> Result<NodeAliases, AllocError> {
    Ok(NodeAliases {
        pairs: shared(alloc, Aliases::new(alloc))?,
        bad: None,
    })
}

fn head(alloc: Global) -> Result<Head, Fault> {
    let node = named(alloc, "B")?;
    Ok(Head {
        node,
        imports: shared(alloc, Items::new(alloc))?,
        aliases: aliases(alloc)?,
        key: shared(alloc, Key::Lasts(Items::new(alloc)))?,
    })
}

fn imported(alloc: Global) -> Result<Imported<bool>, AllocError> {
    let name = Items::from_slice(alloc, &['A'])?;
    let state = shared(alloc, true)?;
    Ok(Imported { name, state })
}

fn imports(alloc: Global, count: usize) -> Result<Imports<bool>, AllocError> {
    let mut imports = Items::new(alloc);
    for _ in 0..count {
        imports.push(imported(alloc)?)?;
    }
    Ok(Imports::Ordered(imports))
}

fn start(alloc: Global, imports: Imports<bool>) -> Result<Input<bool>, Fault> {
    let imports = shared(alloc, imports)?;
    let head = shared(alloc, head(alloc)?)?;
    Ok(Input::Start { head, imports })
}

fn input(alloc: Global, taken: Taken) -> Result<Input<bool>, Fault> {
    match taken {
        Taken::State(state) => Ok(Input::State(shared(alloc, state)?)),
        Taken::Imports(count) => start(alloc, imports(alloc, count)?),
        Taken::BadImport => start(alloc, Imports::Bad(Items::from_slice(alloc, &['C'])?)),
    }
}

fn blob(alloc: Global, has_blob: bool) -> Result<Option<Shared<Text>>, AllocError> {
    if !has_blob {
        return Ok(None);
    }
    Ok(Some(text(alloc, "p")?))
}

/// A copy of what is taken up.
fn copied(alloc: Global, taken: Taken) -> Result<Input<bool>, Fault> {
    let input = input(alloc, taken)?;
    let copy = input.copy();
    drop(input);
    Ok(copy?)
}

/// The source of a job and its blob.
fn given(alloc: Global, has_blob: bool) -> Result<(Shared<Text>, Option<Shared<Text>>), Fault> {
    Ok(both(text(alloc, "ab"), blob(alloc, has_blob))?)
}

/// The job that is asked for, which takes up a copy of its input.
fn job(alloc: Global, asked: Asked) -> Result<Job<bool>, Fault> {
    let exec = ExecId::new(3).ok_or(Fault::Line)?;
    let kind = asked.kind;
    let (input, given) = joined(copied(alloc, asked.taken), given(alloc, asked.has_blob))?;
    let (source, blob) = given;
    Ok(Job::new(Part { exec, kind }, source, blob, input))
}

fn put_kinds(out: &mut String, reports: &[Report]) -> Result<(), AllocError> {
    for report in reports {
        write!(out, "{} ", report.kind.word())?;
    }
    Ok(())
}

/// The state behind an evaluation and whether its command forks, and the kinds of the reports.
fn put_done(out: &mut String, done: &Done<bool>) -> Result<(), AllocError> {
    if let Some(made) = &done.made {
        let forks = if made.forks { "forks " } else { "" };
        write!(out, "{} {forks}", *made.state.get())?;
    }
    put_kinds(out, done.reports.get().as_slice())
}

/// The job's part.
fn put_job(out: &mut String, job: &Job<bool>) -> Result<(), AllocError> {
    out.push_str(kind_word(job.part().kind))?;
    out.push_str(": ")
}

/// What a run gives.
fn put_run(ran: Ran<bool>, out: &mut String) -> Result<(), Fault> {
    match ran {
        Ran::Done(done) => {
            let put = put_done(out, &done);
            drop(done);
            Ok(put?)
        }
        Ran::Stopped(job) => {
            drop(job);
            Ok(out.push_str("stopped")?)
        }
        Ran::NoMemory(job) => {
            drop(job);
            Err(Fault::NoMemory)
        }
    }
}

/// What a run gives of a job that was stopped before.
fn put_again(alloc: Global, asked: Asked, out: &mut String) -> Result<(), Fault> {
    let job = job(alloc, asked)?;
    let Ran::Stopped(back) = job.run(alloc, &Parity, &mut NthStop::new(asked.nth)) else {
        return Err(Fault::Line);
    };
    put_all(alloc, back, 0, out)
}

/// The job's part, and what a run gives.
fn put_all(alloc: Global, job: Job<bool>, nth: u64, out: &mut String) -> Result<(), Fault> {
    let put = put_job(out, &job);
    let run = put_run(job.run(alloc, &Parity, &mut NthStop::new(nth)), out);
    put?;
    run
}

/// What a run gives of the job that words tell; `again` before them has it stopped first.
pub(crate) fn answer(alloc: Global, words: &[&str], out: &mut String) -> Result<(), Fault> {
    match words {
        [first, words @ ..] if *first == "again" => put_again(alloc, asked_of(words)?, out),
        words => {
            let asked = asked_of(words)?;
            put_all(alloc, job(alloc, asked)?, asked.nth, out)
        }
    }
}
