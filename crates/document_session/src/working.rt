//! Workers that work as they find parts ready.
ghost use Rattle.std.specs.Prelude.{◌≡◌, ◌≤◌, ◌<◌, ◌+◌, [], ◌∷◌, ◌++◌, Some};
ghost use Rattle.core_jobs.specs.Fits.{IsDoneOf};
ghost use Rattle.core_rules.specs.Standing.{held};
ghost use Rattle.core_rules.specs.Doc.{doc};
ghost use Rattle.prover_core.specs.Answers.{FinishedSo as CoreFinishedSo};
ghost use Rattle.reply_outbox.specs.declared.item.Item.TheVariants.{Made};
ghost use Rattle.session_rules.specs.Services.{free_workers};
ghost use Rattle.keeping_rules.specs.session_replies_below.Spelling.{reply_spelling};
ghost use Rattle.keeping_rules.specs.Items.{session_in};
ghost use Rattle.keeping_rules.specs.Legal.{AreLegal};
ghost use Rattle.keeping_rules.specs.Works.{IsDoneWorkOf};
ghost use Rattle.keeping_rules.specs.Turns.{entry_of, finish_reply};
ghost use Rattle.document_session.specs.Answers.{ClaimedSo, FinishedSo, GivenUpSo};

use crate::answering::make_room;
use crate::session::Session;
use keeping_rules::free_laws;
use keeping_rules::session_replies_below::{DoneParts, JobParts, SessionDone, SessionJob, dropped};
use language::Language;
use pide_base::{Flag, Part};
use prover_core::{Claim as CoreClaim, Core, Finish, GiveUp as CoreGiveUp};
use reply_outbox::{Outbox, Past};
use session_rules::{Entry, Service};
use std::alloc::Global;

/// What a claim gives.
#[derive(Drop)]
pub enum Claim<S> {
    /// The job of the first ready part, which the worker now holds, and the flag of its execution,
    /// which is set where that is cancelled or no live version has it any more.
    Job { job: SessionJob<S>, flag: Flag },
    /// Nothing is ready, the worker holds a part, or all has ended.
    Nothing,
    /// There was not enough memory, and nothing was claimed.
    NoMemory,
}

/// What became of a part whose job was stopped.
#[derive(Drop)]
pub enum GiveUp<S> {
    /// Its execution is cancelled or in no live version.
    Dropped,
    /// It is still wanted. The job goes on.
    GoOn(SessionJob<S>),
}

impl<L: Language, P: Past<Service, Entry> + Drop> Session<L, P> {
    /// The worker takes the first ready part.
    pub fn claim(&mut self, alloc: Global, lang: &L, who: u32) -> Claim<L::State>
        requires who { who ≤ free_workers self.old.service }
        ensures service { self.new.service ≡ self.old.service }
        ensures claimed { ClaimedSo L.lang self.old.service who self.old.items result
            self.new.items }
        ensures legal { AreLegal L.lang self.new.service self.new.items }
    {
        free_laws::<L>();
        let Some(first) = self.core.first() else {
            return Claim::Nothing;
        };
        let Part { exec, kind } = first;
        if make_room(&mut self.outbox, self.held, 2).is_err() {
            return Claim::NoMemory;
        }
        let Ok(dropped) = dropped(alloc, Part { exec, kind }) else {
            return Claim::NoMemory;
        };
        match self.core.claim(alloc, lang, who) {
            CoreClaim::Nothing => {
                drop(dropped);
                Claim::Nothing
            }
            CoreClaim::NoMemory => {
                drop(dropped);
                Claim::NoMemory
            }
            CoreClaim::Job { job, flag } => {
                self.held += 1;
                let part = Part { exec, kind };
                self.outbox.add(Entry::Claimed { who, part }, None);
                let job = SessionJob::new(job, self.protocol, dropped);
                Claim::Job { job, flag }
            }
        }
    }

    /// Takes in what came of the part that the worker holds. It takes no memory.
    pub fn finish(&mut self, who: u32, done: SessionDone<L::State>) -> Finish
        requires who { who ≤ free_workers self.old.service }
        requires done { IsDoneWorkOf L.lang (session_in L.lang self.old.service self.old.items)
            who done }
        ensures service { self.new.service ≡ self.old.service }
        ensures finished { FinishedSo L.lang self.old.service who done.done.part self.old.items
            result self.new.items }
        ensures legal { AreLegal L.lang self.new.service self.new.items }
    {
        free_laws::<L>();
        let finish = take_in(&mut self.core, &mut self.outbox, who, done);
        self.held -= 1;
        finish
    }

    /// The worker gives up the part that it holds, unless that is still wanted. It takes no memory.
    pub fn give_up(&mut self, who: u32, job: SessionJob<L::State>) -> GiveUp<L::State>
        requires who { who ≤ free_workers self.old.service }
        requires holds { held (session_in L.lang self.old.service self.old.items).events who
            ≡ Some job.job.part }
        ensures service { self.new.service ≡ self.old.service }
        ensures given_up { GivenUpSo L.lang self.old.service who job self.old.items result
            self.new.items }
        ensures legal { AreLegal L.lang self.new.service self.new.items }
    {
        free_laws::<L>();
        let part = job.part();
        let protocol = job.protocol();
        let JobParts { job, dropped } = job.into_parts();
        match self.core.give_up(who, job) {
            CoreGiveUp::GoOn(job) => GiveUp::GoOn(SessionJob::new(job, protocol, dropped)),
            CoreGiveUp::Dropped => {
                self.held -= 1;
                self.outbox.add(Entry::Dropped { who, part }, Some(dropped));
                GiveUp::Dropped
            }
        }
    }
}

/// Takes in what came of a part that the worker holds, with its reply. It takes no memory.
pub(crate) fn take_in<L: Language, P: Past<Service, Entry> + Drop>(
    core: &mut Core<L>,
    outbox: &mut Outbox<Service, Entry, P>,
    who: u32,
    done: SessionDone<L::State>,
) -> Finish
    requires holds { held core.old.past who ≡ Some done.done.part }
    requires right { IsDoneOf L.lang (doc L.lang core.old.past).homes done.done }
    requires room { 0 < outbox.old.free }
    ensures finished { CoreFinishedSo L.lang who done.done.part core.old.past result
        core.new.past }
    ensures items { outbox.new.items ≡ Made (entry_of result who done.done.part)
        ∷ outbox.old.items }
    ensures waiting { outbox.new.waiting ≡ outbox.old.waiting
        ++ reply_spelling (finish_reply result done) ∷ [] }
    ensures free { outbox.new.free + 1 ≡ outbox.old.free }
{
    let part = done.part();
    let DoneParts {
        done,
        report,
        dropped,
    } = done.into_parts();
    match core.finish(who, done) {
        Finish::Finished => {
            outbox.add(Entry::Finished { who, part }, Some(report));
            Finish::Finished
        }
        Finish::Dropped => {
            outbox.add(Entry::Dropped { who, part }, Some(dropped));
            Finish::Dropped
        }
    }
}
