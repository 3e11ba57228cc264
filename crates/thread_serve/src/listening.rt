//! For whom each item is news; whoever waits and isn't named goes on waiting.
//!
//! One worker is enough, however many parts are ready: a worker that is woken claims next, and its
//! claim is news for one worker more, where another part is ready, unless its own part is small: then
//! it is back for the other one before somebody else has awoken. Only where a claim finds nothing
//! does a worker wait; and the reader claims again or has its message answered.
ghost use Rattle.std.specs.Prelude.{◌≡◌};

use crate::locked::Locked;
use document_session::session_replies_below::SessionJob;
use hist_lock::News;
use language::Language;
use reply_outbox::Past;
use session_rules::{Entry, Service};

impl<L: Language, P: Past<Service, Entry> + Drop> Locked<L, P> {
    /// For how many workers it is news that parts may be ready.
    fn workers_for_ready(&self) -> u32 {
        u32::from(self.session.first().is_some())
    }

    /// Whether an end may be what the reader waits for. Where one version is live, and each part
    /// that is held was claimed for it, that version isn't settled before all of them are ended.
    fn may_settle(&self) -> bool {
        let is_sure = self.holds_wanted && self.session.live().len() == 1;
        !is_sure || (self.held == 0 && self.session.first().is_none())
    }

    /// A part is claimed: another may be ready.
    fn news_of_claim(&self, job: &SessionJob<L::State>) -> News {
        let workers = if job.is_small() {
            0
        } else {
            self.workers_for_ready()
        };
        News {
            reader: false,
            writer: false,
            workers,
        }
    }

    /// A message was taken: it has replies, and parts may be ready.
    fn news_of_message(&self) -> News {
        News {
            reader: false,
            writer: true,
            workers: self.workers_for_ready(),
        }
    }

    /// A part is finished or dropped, which may be replied: a version may be settled. Other parts
    /// may be ready, which this caller comes back for.
    fn news_of_end(&self) -> News {
        News {
            reader: self.may_settle(),
            writer: true,
            workers: 0,
        }
    }

    /// Notes the job that was claimed, if one was.
    pub(crate) fn note_claim(&mut self, claimed: Option<&SessionJob<L::State>>)
        ensures { self.new ≡ self.old }
    {
        let Some(job) = claimed else {
            return;
        };
        self.held = self.held.saturating_add(1);
        self.news = self.news_of_claim(job);
    }

    /// Notes whether a part was finished or dropped.
    pub(crate) fn note_end(&mut self, is_ended: bool)
        ensures { self.new ≡ self.old }
    {
        if !is_ended {
            return;
        }
        self.held = self.held.saturating_sub(1);
        self.holds_wanted = self.holds_wanted || self.held == 0;
        self.news = self.news_of_end();
    }

    /// Notes whether a message was answered, by which parts that are held may be wanted no more.
    pub(crate) fn note_message(&mut self, is_answered: bool)
        ensures { self.new ≡ self.old }
    {
        if !is_answered {
            return;
        }
        self.holds_wanted = self.held == 0;
        self.news = self.news_of_message();
    }
}

/// A reply was taken: where no longer too much waits, a message that was put off may be taken.
pub(crate) fn news_of_sending(makes_room: bool) -> News {
    News {
        reader: makes_room,
        writer: false,
        workers: 0,
    }
}
