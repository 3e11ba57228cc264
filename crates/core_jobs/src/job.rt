//! Jobs, and running them.
ghost use Rattle.std.specs.Prelude.{◌≡◌};
ghost use Rattle.std.specs.Option.{option_copied};
ghost use Rattle.core_jobs.specs.Questions.{questions_by, JobAsks};
ghost use Rattle.core_jobs.specs.Runs.{RanSo};

use crate::input::Input;
use crate::ran::Ran;
use core_rules::language_below::{Answer, Language};
use doc_nodes::Shared;
use pide_base::{Part, PartKind, Stop};
use std::alloc::Global;
use std::marker::Model;
use text_edits::Text;

/// A command of fewer scalars is short.
const SHORT: usize = 128;

/// What is needed to work on a part: its command's source and blob, and what it takes up.
#[derive(Drop)]
pub struct Job<S> {
    part: Part,
    source: Shared<Text>,
    blob: Option<Shared<Text>>,
    input: Input<S>,
}

impl<S> Model for Job<S> {
    ghost use Rattle.core_jobs.specs.Jobs.{JobContent};

    ghost Value = { JobContent S };

    ghost view = { λ job. record {
      part = job.part;
      source = job.source;
      blob = job.blob;
      input = job.input;
    } };
}

impl<S> Job<S> {
    /// The job of this part. The source is the command's, in scalars, and the blob the text that
    /// the command asks for, where there is one. It takes no memory.
    pub fn new(
        part: Part,
        source: Shared<Text>,
        blob: Option<Shared<Text>>,
        input: Input<S>,
    ) -> Job<S>
        ensures { result ≡ record { part = part; source = source; blob = blob; input = input } }
    {
        Job {
            part,
            source,
            blob,
            input,
        }
    }

    /// The part that it works on.
    pub fn part(&self) -> Part
        ensures { result ≡ self.now.part }
    {
        self.part
    }

    /// The command's source, in scalars.
    pub fn source(&self) -> &[char]
        ensures { result.now ≡ self.now.source }
    {
        self.source.get().as_slice()
    }

    /// Whether the work is likely to take less time than a worker needs to awake: the evaluation of
    /// a short command without a blob, whose state is there. A fork checks a proof, and a print may
    /// search, so they are none.
    pub fn is_small(&self) -> bool {
        self.part.kind == PartKind::Eval
            && self.source().len() < SHORT
            && self.blob.is_none()
            && matches!(self.input, Input::State(_))
    }

    pub(crate) fn blob(&self) -> Option<&[char]>
        ensures { option_copied result ≡ self.now.blob }
    {
        match &self.blob {
            Some(blob) => Some(blob.get().as_slice()),
            None => None,
        }
    }

    pub(crate) fn input(&self) -> &Input<S>
        ensures { result.now ≡ self.now.input }
    {
        &self.input
    }
}

impl<S: Drop> Job<S> {
    /// Works on the part. Done has the language's answer to the command, its blob and the state
    /// that is taken up, whatever `stop` says: an evaluation runs the command, a fork has what is
    /// reported of it later, a print what is printed of it. Stopped comes only where `stop`
    /// answered yes in this call. There and for want of memory the job is as it was. `stop` is asked
    /// as often as the language asks.
    pub fn run<L: Language<State = S>, P: Stop>(
        self,
        alloc: Global,
        lang: &L,
        stop: &mut P,
    ) -> Ran<S>
        ensures ran { RanSo L.lang self result (P.yeses stop.old) (P.yeses stop.new) }
        ensures asks { JobAsks result (questions_by L.lang L.questions self)
            (P.questions stop.old) (P.questions stop.new) }
    {
        match self.worked_on(alloc, lang, stop) {
            Answer::Given(done) => Ran::Done(done),
            Answer::Stopped => Ran::Stopped(self),
            Answer::NoMemory => Ran::NoMemory(self),
        }
    }
}
