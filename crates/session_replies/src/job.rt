//! Jobs.
ghost use Rattle.std.specs.Prelude.{◌≡◌, IfOk};
ghost use Rattle.reply_messages.specs.declared.told.Told.TheVariants as tells;
ghost use Rattle.session_replies.specs.Spelling.{reply_spelling};
ghost use Rattle.session_replies.specs.Works.{work_report};
ghost use Rattle.core_jobs.specs.Questions.{questions_by};
ghost use Rattle.session_replies.specs.Questions.{SessionJobAsks};
ghost use Rattle.session_replies.specs.Runs.{RanSo, ReportedSo};

use crate::done::SessionDone;
use crate::ran::SessionRan;
use crate::reported::report;
use core_jobs::{Done, Job};
use language::{Answer, Language};
use message_values::Protocol;
use pide_base::{Part, Stop};
use std::alloc::{AllocError, Global};
use std::marker::Model;

/// A job with the reply that tells that its part was let go. Contracts see the job, and the
/// protocol by which its reports are told.
#[derive(Drop)]
pub struct SessionJob<S> {
    job: Job<S>,
    protocol: Protocol,
    dropped: Vec<u8>,
}

impl<S> Model for SessionJob<S> {
    ghost use Rattle.std.specs.Prelude.{◌≡◌};
    ghost use Rattle.reply_messages.specs.declared.told.Told.TheVariants as tells;
    ghost use Rattle.session_replies.specs.Spelling.{reply_spelling};
    ghost use Rattle.session_replies.specs.Works.{Work};

    ghost Value = { Work S };

    ghost view = { λ j. record { job = j.job; protocol = j.protocol } };

    ghost invariant = { λ j. j.dropped.items ≡ reply_spelling (tells.Dropped j.job.part) };
}

/// A job of the core, and the bytes of the reply that its part was let go.
#[derive(Drop)]
pub struct JobParts<S> {
    pub job: Job<S>,
    pub dropped: Vec<u8>,
}

impl<S> SessionJob<S> {
    /// The job, with the reply that tells that its part was let go. It takes no memory.
    pub fn new(job: Job<S>, protocol: Protocol, dropped: Vec<u8>) -> SessionJob<S>
        requires { dropped.items ≡ reply_spelling (tells.Dropped job.part) }
        ensures { result ≡ record { job = job; protocol = protocol } }
    {
        SessionJob {
            job,
            protocol,
            dropped,
        }
    }

    /// The part that it works on.
    pub fn part(&self) -> Part
        ensures { result ≡ self.now.job.part }
    {
        self.job.part()
    }

    /// Whether the work is likely to take less time than a worker needs to awake.
    pub fn is_small(&self) -> bool {
        self.job.is_small()
    }

    /// How its reports are told.
    pub fn protocol(&self) -> Protocol
        ensures { result ≡ self.now.protocol }
    {
        self.protocol
    }

    /// The core's job, and the bytes of the reply.
    pub fn into_parts(self) -> JobParts<S>
        ensures job { result.job ≡ self.job }
        ensures dropped { result.dropped.items ≡ reply_spelling (tells.Dropped self.job.part) }
    {
        JobParts {
            job: self.job,
            dropped: self.dropped,
        }
    }
}

impl<S: Drop> SessionJob<S> {
    /// Works on the part, and writes the reply that tells its reports. Done has what the core's job
    /// gives, whatever `stop` says. Stopped comes only where `stop` answered yes in this call.
    /// There and for want of memory the job is as it was. `stop` is asked as often as the language
    /// asks.
    pub fn run<L: Language<State = S>, P: Stop>(
        self,
        alloc: Global,
        lang: &L,
        stop: &mut P,
    ) -> SessionRan<S>
        ensures ran { RanSo L.lang self result (P.yeses stop.old) (P.yeses stop.new) }
        ensures asks { SessionJobAsks result (questions_by L.lang L.questions self.job)
            (P.questions stop.old) (P.questions stop.new) }
    {
        match self.job.worked_on(alloc, lang, stop) {
            Answer::Stopped => SessionRan::Stopped(self),
            Answer::NoMemory => SessionRan::NoMemory(self),
            Answer::Given(done) => self.reported(alloc, done),
        }
    }

    /// What came of the part, with the reply that tells its reports.
    fn reported(self, alloc: Global, done: Done<S>) -> SessionRan<S>
        requires { done.part ≡ self.job.part }
        ensures { ReportedSo self done result }
    {
        match report_on(alloc, self.protocol, self.job.source(), &done) {
            Err(_) => SessionRan::NoMemory(self),
            Ok(report) => {
                let SessionJob {
                    job,
                    protocol,
                    dropped,
                } = self;
                SessionRan::Done(SessionDone::new(job, done, protocol, report, dropped))
            }
        }
    }
}

/// The reply that tells what came of a part, whose command has this source.
fn report_on<S>(
    alloc: Global,
    protocol: Protocol,
    source: &[char],
    done: &Done<S>,
) -> Result<Vec<u8>, AllocError>
    ensures { IfOk result (λ bytes. bytes.items ≡ reply_spelling (work_report (record {
      done = done.now;
      source = source.now;
      protocol = protocol;
    }))) }
{
    let Part { exec, kind } = done.part;
    let part = Part { exec, kind };
    report(alloc, protocol, part, source, done.reports.get().as_slice())
}
