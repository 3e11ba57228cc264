//! What comes of a job.
ghost use Rattle.std.specs.Prelude.{◌≡◌};
ghost use Rattle.reply_messages.specs.declared.told.Told.TheVariants as tells;
ghost use Rattle.session_replies.specs.Spelling.{reply_spelling};
ghost use Rattle.session_replies.specs.Works.{work_report};

use core_jobs::{Done, Job};
use message_values::Protocol;
use pide_base::Part;
use std::marker::Model;

/// What came of a part, with the replies that tell its reports and that it was let go. Contracts
/// see what came of it, its command's source in scalars, and the protocol of the reports.
#[derive(Drop)]
pub struct SessionDone<S> {
    job: Job<S>,
    done: Done<S>,
    protocol: Protocol,
    report: Vec<u8>,
    dropped: Vec<u8>,
}

impl<S> Model for SessionDone<S> {
    ghost use Rattle.std.specs.Prelude.{◌≡◌};
    ghost use Rattle.reply_messages.specs.declared.told.Told.TheVariants as tells;
    ghost use Rattle.session_replies.specs.Spelling.{reply_spelling};
    ghost use Rattle.session_replies.specs.Works.{WorkDone, work_report};

    ghost Value = { WorkDone S };

    ghost view = { λ d. record { done = d.done; source = d.job.source; protocol = d.protocol } };

    ghost invariant = { λ d. (d.report.items ≡ reply_spelling (work_report (record {
      done = d.done;
      source = d.job.source;
      protocol = d.protocol;
    }))) × (d.dropped.items ≡ reply_spelling (tells.Dropped d.done.part)) };
}

/// What came of a part, and the bytes of both replies.
#[derive(Drop)]
pub struct DoneParts<S> {
    pub done: Done<S>,
    pub report: Vec<u8>,
    pub dropped: Vec<u8>,
}

impl<S> SessionDone<S> {
    /// What came of the job, with its replies.
    pub(crate) fn new(
        job: Job<S>,
        done: Done<S>,
        protocol: Protocol,
        report: Vec<u8>,
        dropped: Vec<u8>,
    ) -> SessionDone<S>
        requires report { report.items ≡ reply_spelling (work_report (record {
          done = done;
          source = job.source;
          protocol = protocol;
        })) }
        requires dropped { dropped.items ≡ reply_spelling (tells.Dropped done.part) }
        ensures { result ≡ record { done = done; source = job.source; protocol = protocol } }
    {
        SessionDone {
            job,
            done,
            protocol,
            report,
            dropped,
        }
    }

    /// The part.
    pub fn part(&self) -> Part
        ensures { result ≡ self.now.done.part }
    {
        let Part { exec, kind } = self.done.part;
        Part { exec, kind }
    }
}

impl<S: Drop> SessionDone<S> {
    /// What came of it, and the bytes of both replies.
    pub fn into_parts(self) -> DoneParts<S>
        ensures done { result.done ≡ self.done }
        ensures report { result.report.items ≡ reply_spelling (work_report self) }
        ensures dropped { result.dropped.items ≡ reply_spelling (tells.Dropped self.done.part) }
    {
        DoneParts {
            done: self.done,
            report: self.report,
            dropped: self.dropped,
        }
    }
}
