//! Messages that tell a worker to take a part, or to end it.
ghost use Rattle.std.specs.Prelude.{◌≡◌, ◌+◌, ◌^◌, ◌<◌, ◌≤◌, ℕ, false, IfOk, OnOk, OnErr, Ok};
ghost use Rattle.std.specs.HashMap.{spare};
ghost use Rattle.prover_core.specs.Looked.{looked};
ghost use Rattle.reply_messages.specs.declared.told.Told.TheVariants as tells;
ghost use Rattle.keeping_rules.specs.session_replies_below.Spelling.{reply_spelling};
ghost use Rattle.core_rules.specs.Standing.{has_ended};
ghost use Rattle.message_values.specs.Asked.{asked};
ghost use Rattle.message_values.specs.Workers.{IsWorker};
ghost use Rattle.message_values.specs.declared.editor_message.EditorMessage.TheVariants as asks;
ghost use Rattle.session_rules.specs.Services.{mode_of};
ghost use Rattle.keeping_rules.specs.Items.{session_in};
ghost use Rattle.keeping_rules.specs.Legal.{AreLegal};
ghost use Rattle.document_session.specs.Answers.{TakenSo};

use crate::answering::make_room;
use crate::session::Session;
use crate::table::{Table, put, reserve_one, take_out};
use crate::taking::Taken;
use crate::working::take_in;
use byte_message::Message;
use core_jobs::job_law;
use joined_results::both;
use keeping_rules::session_replies_below::{SessionJob, SessionRan, claimed, dropped};
use keeping_rules::step_laws;
use language::Language;
use message_values::{Refusal, Worker, a_message_is_asked_where_it_is_spelled};
use pide_base::{Never, Part};
use prover_core::Claim as CoreClaim;
use reply_outbox::{Outbox, Past};
use session_rules::{Entry, Service};
use std::alloc::{AllocError, Global};

impl<L: Language, P: Past<Service, Entry> + Drop> Session<L, P> {
    /// The worker takes the first ready part.
    pub(crate) fn step_claim(
        &mut self,
        alloc: Global,
        lang: &L,
        message: Message,
        worker: Worker,
    ) -> Result<Taken, AllocError>
        requires going { has_ended (session_in L.lang self.old.service self.old.items).events
            ≡ false }
        requires read { asked (mode_of self.old.service) message
            ≡ Ok (asks.Claim worker) }
        ensures service { self.new.service ≡ self.old.service }
        ensures taken { IfOk result (λ taken. TakenSo L.lang self.old.service message
            self.old.items taken self.new.items) }
        ensures err { OnErr result (self.new ≡ self.old) }
        ensures legal { AreLegal L.lang self.new.service self.new.items }
    {
        step_laws::<L>();
        a_message_is_asked_where_it_is_spelled();
        make_step_room(&mut self.outbox, &mut self.jobs, self.held, 3)?;
        let Some(part) = self.core.first() else {
            return self.refuse(alloc, message, Refusal::NothingToStep);
        };
        let (claimed, dropped) = claim_replies(alloc, worker, &part)?;
        let who = number_of(worker);
        match self.core.claim(alloc, lang, who) {
            CoreClaim::Nothing => {
                drop(claimed);
                drop(dropped);
                self.refuse(alloc, message, Refusal::NothingToStep)
            }
            CoreClaim::NoMemory => {
                drop(claimed);
                drop(dropped);
                drop(message);
                Err(AllocError)
            }
            CoreClaim::Job { job, flag } => {
                drop(flag);
                put(
                    &mut self.jobs,
                    who,
                    SessionJob::new(job, self.protocol, dropped),
                );
                self.held += 1;
                self.called = true;
                self.outbox.add(Entry::Call(message), None);
                self.outbox.add(Entry::Claimed { who, part }, Some(claimed));
                Ok(Taken::Replied)
            }
        }
    }

    /// The worker works on the part that it holds to the end, or lets it go if nobody wants it.
    pub(crate) fn step_finish(
        &mut self,
        alloc: Global,
        lang: &L,
        message: Message,
        worker: Worker,
    ) -> Result<Taken, AllocError>
        requires going { has_ended (session_in L.lang self.old.service self.old.items).events
            ≡ false }
        requires read { asked (mode_of self.old.service) message
            ≡ Ok (asks.Finish worker) }
        ensures service { self.new.service ≡ self.old.service }
        ensures taken { IfOk result (λ taken. TakenSo L.lang self.old.service message
            self.old.items taken self.new.items) }
        ensures err { OnErr result (self.new ≡ self.old) }
        ensures legal { AreLegal L.lang self.new.service self.new.items }
    {
        step_laws::<L>();
        job_law::<L>();
        a_message_is_asked_where_it_is_spelled();
        let who = number_of(worker);
        make_step_room(&mut self.outbox, &mut self.jobs, self.held, 2)?;
        let Some(job) = take_out(&mut self.jobs, who) else {
            return self.refuse(alloc, message, Refusal::NothingToStep);
        };
        match job.run(alloc, lang, &mut Never::new()) {
            SessionRan::Done(done) => {
                self.called = true;
                self.outbox.add(Entry::Call(message), None);
                take_in(&mut self.core, &mut self.outbox, who, done);
                self.held -= 1;
                Ok(Taken::Replied)
            }
            SessionRan::Stopped(job) | SessionRan::NoMemory(job) => {
                put(&mut self.jobs, who, job);
                drop(message);
                Err(AllocError)
            }
        }
    }
}

/// Makes room for what a step adds to the list, and for the job of a worker.
fn make_step_room<T: Drop, P: Past<Service, Entry> + Drop>(
    outbox: &mut Outbox<Service, Entry, P>,
    jobs: &mut Table<T>,
    held: usize,
    entries: usize,
) -> Result<(), AllocError>
    ensures items { outbox.new.items ≡ outbox.old.items }
    ensures waiting { outbox.new.waiting ≡ outbox.old.waiting }
    ensures free { outbox.old.free ≤ outbox.new.free }
    ensures ok { OnOk result (held + 1 + entries ≤ outbox.new.free) }
    ensures fits { OnOk result (held + 1 + entries < 2 ^ 64) }
    ensures jobs { (w : ℕ) → looked jobs.new w ≡ looked jobs.old w }
    ensures spare { OnOk result (0 < spare jobs.new) }
{
    make_room(outbox, held, entries)?;
    reserve_one(jobs)
}

/// The replies to a worker that claims a part: that it has it, and that it let it go.
fn claim_replies(
    alloc: Global,
    worker: Worker,
    part: &Part,
) -> Result<(Vec<u8>, Vec<u8>), AllocError>
    ensures claimed { IfOk result (λ both. both.0.items
        ≡ reply_spelling (tells.Claimed worker part.now)) }
    ensures dropped { IfOk result (λ both. both.1.items ≡ reply_spelling (tells.Dropped part.now)) }
{
    both(
        claimed(alloc, worker, same(part)),
        dropped(alloc, same(part)),
    )
}

/// The same part.
fn same(part: &Part) -> Part
    ensures { result ≡ part.now }
{
    Part {
        exec: part.exec,
        kind: part.kind,
    }
}

/// The worker's number, as those of workers are kept.
fn number_of(worker: Worker) -> u32
    ensures value { result ≡ worker }
    ensures range { IsWorker result }
{
    worker.number() as u32
}
