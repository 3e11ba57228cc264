//! One execution: which of its parts are finished, with their results.
ghost use Rattle.std.specs.Prelude.{◌≡◌, ◌↔◌, false, Some, IsOk, IsSome, IfErr, OnOk, OnErr, is_some};
ghost use Rattle.std.specs.Option.{option_copied};
ghost use Rattle.core_tables.specs.Progress.{result_of, is_done, is_idle};
ghost use Rattle.core_tables.specs.Finish.{finished, finished_in, cancelling, after_cancelling};

use crate::execs::Cancelling;
use pide_base::PartKind;
use std::mem;

/// How far an execution is: an evaluation has `eval` and, where its command forks, `fork`; a print
/// has `print`. The result of a finished part stands beside it.
#[derive(Debug, Drop)]
pub enum Progress<R> {
    /// An evaluation whose `eval` is unfinished.
    Evaluating,
    /// An evaluation whose `eval` is finished, and whose `fork` is not.
    Forking { eval: R },
    /// An evaluation whose `eval` is finished, and whose command does not fork.
    Evaluated { eval: R },
    /// An evaluation both of whose parts are finished.
    Forked { eval: R, fork: R },
    /// A print that is unfinished.
    Printing,
    /// A print that is finished.
    Printed { print: R },
}

/// What finishing one part brings. At an `eval` it says whether the command forks.
#[derive(Debug, Drop)]
pub enum Done<R> {
    Eval { result: R, forks: bool },
    Fork { result: R },
    Print { result: R },
}

/// An execution of the table.
#[derive(Debug, Drop)]
pub struct Execution<R> {
    pub cancelled: bool,
    pub progress: Progress<R>,
}

impl<R: Drop> Progress<R> {
    /// Whether this part is the next to finish.
    fn awaits(&self, done: &Done<R>) -> bool
        ensures { result ≡ is_some (finished done.now self.now) }
    {
        match (self, done) {
            (Progress::Evaluating, Done::Eval { .. }) => true,
            (Progress::Forking { .. }, Done::Fork { .. }) => true,
            (Progress::Printing, Done::Print { .. }) => true,
            _ => false,
        }
    }

    fn finish(self, done: Done<R>) -> Progress<R>
        requires { IsSome (finished done self) }
        ensures { finished done self ≡ Some result }
    {
        match (self, done) {
            (
                Progress::Evaluating,
                Done::Eval {
                    result,
                    forks: true,
                },
            ) => Progress::Forking { eval: result },
            (
                Progress::Evaluating,
                Done::Eval {
                    result,
                    forks: false,
                },
            ) => Progress::Evaluated { eval: result },
            (Progress::Forking { eval }, Done::Fork { result }) => Progress::Forked {
                eval,
                fork: result,
            },
            (Progress::Printing, Done::Print { result }) => Progress::Printed { print: result },
            _ => unreachable!(),
        }
    }
}

impl<R: Drop> Execution<R> {
    /// Finishes a part. What it brings is handed back, and nothing changes, where the execution is
    /// cancelled or the part is not the next to finish.
    pub(crate) fn finish(&mut self, done: Done<R>) -> Result<(), Done<R>>
        ensures finished { IsOk result ↔ IsSome (finished_in done self.old) }
        ensures ok { OnOk result (finished_in done self.old ≡ Some self.new) }
        ensures back { IfErr result (λ back. back ≡ done) }
        ensures err { OnErr result (self.new ≡ self.old) }
    {
        if self.cancelled || !self.progress.awaits(&done) {
            return Err(done);
        }
        let before = mem::replace(&mut self.progress, Progress::Evaluating);
        drop(mem::replace(&mut self.progress, before.finish(done)));
        Ok(())
    }
}

impl<R> Execution<R> {
    /// Cancels it, unless nothing is left of it to cancel.
    pub(crate) fn cancel(&mut self) -> Cancelling
        ensures answer { result ≡ cancelling (Some self.old) }
        ensures after { after_cancelling (Some self.old) ≡ Some self.new }
    {
        if self.is_idle() {
            return Cancelling::Idle;
        }
        self.cancelled = true;
        Cancelling::Cancelled
    }

    /// An evaluation of which nothing is finished.
    pub fn evaluation() -> Execution<R>
        ensures { result ≡ record { cancelled = false; progress = Progress.Evaluating } }
    {
        Execution {
            cancelled: false,
            progress: Progress::Evaluating,
        }
    }

    /// A print that is unfinished.
    pub fn print() -> Execution<R>
        ensures { result ≡ record { cancelled = false; progress = Progress.Printing } }
    {
        Execution {
            cancelled: false,
            progress: Progress::Printing,
        }
    }

    /// Whether all its parts are finished.
    pub fn is_done(&self) -> bool
        ensures { result ≡ is_done self.now.progress }
    {
        match &self.progress {
            Progress::Evaluated { .. } | Progress::Forked { .. } | Progress::Printed { .. } => true,
            Progress::Evaluating | Progress::Forking { .. } | Progress::Printing => false,
        }
    }

    /// Whether nothing is left of it to cancel: it is cancelled already, or all its parts are
    /// finished.
    pub fn is_idle(&self) -> bool
        ensures { result ≡ is_idle self.now }
    {
        self.cancelled || self.is_done()
    }

    /// The result of a part of it, where that is finished.
    pub fn result_of(&self, kind: PartKind) -> Option<&R>
        ensures { option_copied result ≡ result_of kind self.now.progress }
    {
        match (kind, &self.progress) {
            (PartKind::Eval, Progress::Forking { eval } | Progress::Evaluated { eval }) => Some(
                eval,
            ),
            (PartKind::Eval, Progress::Forked { eval, fork: _ }) => Some(eval),
            (PartKind::Fork, Progress::Forked { eval: _, fork }) => Some(fork),
            (PartKind::Print, Progress::Printed { print }) => Some(print),
            _ => None,
        }
    }
}
