//! The lines of transcripts.
use crate::command::Command;
use crate::nodes::begun;
use crate::parts::tell_command;
use doc_nodes::Shared;
use language::Language;
use std::alloc::{AllocError, Global};

/// A place that commands have reached.
#[derive(Drop)]
pub(crate) struct Transcript<S> {
    state: Shared<S>,
}

impl<S: Drop> Transcript<S> {
    /// The beginning of a node.
    pub(crate) fn new<L: Language<State = S>>(
        alloc: Global,
        lang: &L,
    ) -> Result<Transcript<S>, AllocError> {
        let state = begun(alloc, lang, "node")?;
        Ok(Transcript { state })
    }

    /// The next command stands there.
    fn go_on(&mut self, state: Shared<S>) {
        drop(std::mem::replace(&mut self.state, state));
    }
}

/// What a line is answered.
pub(crate) fn answer_line<L: Language>(
    alloc: Global,
    lang: &L,
    transcript: &mut Transcript<L::State>,
    line: &str,
) -> Result<String, AllocError> {
    let (sign, rest) = match line.split_once(' ') {
        Some(parts) => parts,
        None => (line, ""),
    };
    match sign {
        "" | "#" | "*" => format!(in alloc; "{line}\n"),
        "node" => answer_node(alloc, lang, transcript, line),
        "+" | "?" | "." => answer_command(alloc, lang, transcript, sign, rest),
        _ => format!(in alloc; "wrong line: {line}\n"),
    }
}

/// A node begins.
fn answer_node<L: Language>(
    alloc: Global,
    lang: &L,
    transcript: &mut Transcript<L::State>,
    line: &str,
) -> Result<String, AllocError> {
    transcript.go_on(begun(alloc, lang, line)?);
    format!(in alloc; "{line}\n")
}

/// A command: behind `?` it is only tried, and behind `.` nothing is told of it.
fn answer_command<L: Language>(
    alloc: Global,
    lang: &L,
    transcript: &mut Transcript<L::State>,
    sign: &str,
    written: &str,
) -> Result<String, AllocError> {
    let mut told = String::new(alloc);
    tell_written(alloc, lang, transcript, &mut told, sign, written)?;
    if sign == "." {
        return format!(in alloc; ". {written}\n");
    }
    format!(in alloc; "{sign} {written}|{told}\n")
}

/// Adds what is told of a command. The next one stands behind it, unless it was only tried.
fn tell_written<L: Language>(
    alloc: Global,
    lang: &L,
    transcript: &mut Transcript<L::State>,
    told: &mut String,
    sign: &str,
    written: &str,
) -> Result<(), AllocError> {
    let command = Command::new(alloc, written)?;
    let behind = tell_command(alloc, lang, told, &command, &transcript.state);
    drop(command);
    match behind? {
        Some(state) if sign != "?" => transcript.go_on(state),
        _ => {}
    }
    Ok(())
}
