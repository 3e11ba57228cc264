//! The parts of a command as jobs, and what is told of them.
use crate::command::Command;
use core_jobs::{Done, Evaluated, Input, Job, Ran};
use doc_nodes::Shared;
use joined_results::both;
use language::Language;
use pide_base::{ExecId, Part, PartKind};
use pide_io::NthStop;
use report_markup::Report;
use std::alloc::{AllocError, Global};

/// The job of a part of a command, which takes up the state.
fn job<S: Drop>(
    alloc: Global,
    kind: PartKind,
    command: &Command,
    state: &Shared<S>,
) -> Result<Job<S>, AllocError> {
    let ((source, blob), state) = both(
        both(command.source.copy(), command.shared_blob()),
        state.copy(),
    )?;
    let exec = ExecId::numbered(1);
    Ok(Job::new(Part { exec, kind }, source, blob, Input::State(state)))
}

/// The kind of a report and its text, each behind a blank.
fn tell_one(told: &mut String, report: &Report) -> Result<(), AllocError> {
    told.push_str(" ")?;
    told.push_str(report.kind.word())?;
    if report.text.as_str().is_empty() {
        return Ok(());
    }
    told.push_str(" ")?;
    told.push_str(report.text.as_str())
}

/// The kind of each report and its text.
fn tell(told: &mut String, reports: &[Report]) -> Result<(), AllocError> {
    for report in reports {
        tell_one(told, report)?;
    }
    Ok(())
}

/// Adds what a part reports, and gives what it leaves.
fn tell_done<S: Drop>(
    told: &mut String,
    done: Done<S>,
) -> Result<Option<Evaluated<S>>, AllocError> {
    let Done { reports, made, .. } = done;
    match tell(told, reports.get().as_slice()) {
        Ok(()) => Ok(made),
        Err(error) => Err(error),
    }
}

/// Adds what a part of a command reports, and gives what it leaves, where it is an evaluation.
fn tell_part<L: Language>(
    alloc: Global,
    lang: &L,
    told: &mut String,
    kind: PartKind,
    command: &Command,
    state: &Shared<L::State>,
) -> Result<Option<Evaluated<L::State>>, AllocError> {
    match job(alloc, kind, command, state)?.run(alloc, lang, &mut NthStop::new(0)) {
        Ran::Done(done) => tell_done(told, done),
        Ran::Stopped(_) => {
            told.push_str(" stopped")?;
            Ok(None)
        }
        Ran::NoMemory(_) => Err(AllocError),
    }
}

/// Adds what the fork of a command reports behind `/`, and what is printed of it behind `=>`.
fn tell_rest<L: Language>(
    alloc: Global,
    lang: &L,
    told: &mut String,
    command: &Command,
    state: &Shared<L::State>,
    made: &Evaluated<L::State>,
) -> Result<(), AllocError> {
    if made.forks {
        told.push_str(" /")?;
        drop(tell_part(alloc, lang, told, PartKind::Fork, command, state)?);
    }
    told.push_str(" =>")?;
    drop(tell_part(alloc, lang, told, PartKind::Print, command, &made.state)?);
    Ok(())
}

/// Adds all that is reported of a command, and gives the state behind it.
pub(crate) fn tell_command<L: Language>(
    alloc: Global,
    lang: &L,
    told: &mut String,
    command: &Command,
    state: &Shared<L::State>,
) -> Result<Option<Shared<L::State>>, AllocError> {
    let Some(made) = tell_part(alloc, lang, told, PartKind::Eval, command, state)? else {
        return Ok(None);
    };
    let rest = tell_rest(alloc, lang, told, command, state, &made);
    let state = behind(made);
    match rest {
        Ok(()) => Ok(Some(state)),
        Err(error) => Err(error),
    }
}

/// The state that an evaluation leaves.
fn behind<S: Drop>(made: Evaluated<S>) -> Shared<S> {
    let Evaluated { state, .. } = made;
    state
}
