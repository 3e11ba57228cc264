//! How a job's part is worked on.
ghost use Rattle.std.specs.Prelude.{◌≡◌, Some, IfOk};
ghost use Rattle.pide_base.specs.declared.part.PartKind.TheVariants as kind;
ghost use Rattle.core_rules.specs.language_below.Answers.{IsAnswer};
ghost use Rattle.core_rules.specs.language_below.Questions.{AsksSo};
ghost use Rattle.core_jobs.specs.Jobs.{setting_in};
ghost use Rattle.core_jobs.specs.Questions.{questions_in, questions_by};
ghost use Rattle.core_jobs.specs.Runs.{given, done_as, done_in, done_by};

use crate::done::{Done, Evaluated};
use crate::input::Input;
use crate::job::Job;
use core_rules::language_below::{Answer, Language, Made};
use doc_nodes::Shared;
use joined_results::both;
use pide_base::{PartKind, Stop};
use report_markup::Report;
use sqlite_items::Items;
use std::alloc::{AllocError, Global};

impl<S: Drop> Job<S> {
    /// Works on the part, as `run` does, and leaves the job to the caller.
    pub fn worked_on<L: Language<State = S>, P: Stop>(
        &self,
        alloc: Global,
        lang: &L,
        stop: &mut P,
    ) -> Answer<Done<S>>
        ensures answer { IsAnswer result (done_by L.lang self.now)
            (P.yeses stop.old) (P.yeses stop.new) }
        ensures asks { AsksSo result (questions_by L.lang L.questions self.now)
            (P.questions stop.old) (P.questions stop.new) }
    {
        match self.input() {
            Input::State(state) => self.done_in(alloc, lang, state.get(), stop),
            Input::Start { head, imports } => {
                let head = head.get();
                match lang.start(alloc, &head.node, imports.get(), &head.aliases) {
                    Ok(state) => self.done_in(alloc, lang, &state, stop),
                    Err(_) => Answer::NoMemory,
                }
            }
        }
    }

    /// What comes of the part in this state.
    fn done_in<L: Language<State = S>, P: Stop>(
        &self,
        alloc: Global,
        lang: &L,
        state: &S,
        stop: &mut P,
    ) -> Answer<Done<S>>
        ensures answer { IsAnswer result
            (done_in L.lang self.now.part (setting_in self.now state.now))
            (P.yeses stop.old) (P.yeses stop.new) }
        ensures asks { AsksSo result
            (questions_in L.questions self.now.part.kind (setting_in self.now state.now))
            (P.questions stop.old) (P.questions stop.new) }
    {
        match self.part().kind {
            PartKind::Eval => self.evaluated(alloc, lang, state, stop),
            PartKind::Fork => self.forked(alloc, lang, state, stop),
            PartKind::Print => given(self.printed(alloc, lang, state)),
        }
    }

    /// The command is run in this state.
    fn evaluated<L: Language<State = S>, P: Stop>(
        &self,
        alloc: Global,
        lang: &L,
        state: &S,
        stop: &mut P,
    ) -> Answer<Done<S>>
        ensures answer { IsAnswer result
            (done_as L.lang kind.Eval self.now.part (setting_in self.now state.now))
            (P.yeses stop.old) (P.yeses stop.new) }
        ensures asks { AsksSo result
            (questions_in L.questions kind.Eval (setting_in self.now state.now))
            (P.questions stop.old) (P.questions stop.new) }
    {
        match lang.step(alloc, self.source(), self.blob(), state, stop) {
            Answer::Given(made) => given(self.with_state(alloc, made)),
            Answer::Stopped => Answer::Stopped,
            Answer::NoMemory => Answer::NoMemory,
        }
    }

    /// What is reported later of the command, by this state before it.
    fn forked<L: Language<State = S>, P: Stop>(
        &self,
        alloc: Global,
        lang: &L,
        state: &S,
        stop: &mut P,
    ) -> Answer<Done<S>>
        ensures answer { IsAnswer result
            (done_as L.lang kind.Fork self.now.part (setting_in self.now state.now))
            (P.yeses stop.old) (P.yeses stop.new) }
        ensures asks { AsksSo result
            (questions_in L.questions kind.Fork (setting_in self.now state.now))
            (P.questions stop.old) (P.questions stop.new) }
    {
        match lang.fork(alloc, self.source(), state, stop) {
            Answer::Given(reports) => given(self.done(alloc, reports, None)),
            Answer::Stopped => Answer::Stopped,
            Answer::NoMemory => Answer::NoMemory,
        }
    }

    /// What is printed of the command, by this state behind it.
    fn printed<L: Language<State = S>>(
        &self,
        alloc: Global,
        lang: &L,
        state: &S,
    ) -> Result<Done<S>, AllocError>
        ensures { IfOk result (λ done. done
            ≡ done_as L.lang kind.Print self.now.part (setting_in self.now state.now)) }
    {
        let reports = lang.print(alloc, self.source(), state)?;
        self.done(alloc, reports, None)
    }

    /// What an evaluation made, with its state in memory that is shared.
    fn with_state(&self, alloc: Global, made: Made<S>) -> Result<Done<S>, AllocError>
        ensures { IfOk result (λ done. done ≡ record {
          part = self.now.part;
          reports = made.reports;
          made = Some (record { state = made.state; forks = made.forks });
        }) }
    {
        let Made {
            state,
            reports,
            forks,
        } = made;
        let state = Shared::new(alloc, state).map_err(|_| AllocError);
        let (state, reports) = both(state, Ok(reports))?;
        self.done(alloc, reports, Some(Evaluated { state, forks }))
    }

    /// The part with its reports, in memory that is shared.
    fn done(
        &self,
        alloc: Global,
        reports: Items<Report>,
        made: Option<Evaluated<S>>,
    ) -> Result<Done<S>, AllocError>
        ensures { IfOk result (λ done. done
            ≡ record { part = self.now.part; reports = reports; made = made }) }
    {
        let reports = Shared::new(alloc, reports).map_err(|_| AllocError);
        let (reports, made) = both(reports, Ok(made))?;
        Ok(Done {
            part: self.part(),
            reports,
            made,
        })
    }
}

fn given<S>(done: Result<Done<S>, AllocError>) -> Answer<Done<S>>
    ensures { result ≡ given done }
{
    match done {
        Ok(done) => Answer::Given(done),
        Err(_) => Answer::NoMemory,
    }
}
