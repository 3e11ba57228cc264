//! The editor's buffer with the core behind it, and the jobs that workers hold. Each call may be
//! made at any time: one that the core doesn't take then says so.
ghost use Rattle.std.specs.Prelude.{◌≡◌, ◌<◌, false};
ghost use Rattle.core_rules.specs.Standing.{has_ended};
ghost use Rattle.core_rules.specs.Doc.{doc};
ghost use Rattle.test_editor.specs.Tally.{counting};
ghost use Rattle.test_editor.specs.Desk.{IsPreparedBy};

use crate::table::{Table, put, take_out};
use crate::tally::Tally;
use buffer_laws::fits_law;
use core_jobs::{Job, Ran, job_law};
use core_rules::core_law;
use core_tables::{Cancelling, Removing};
use editor_buffer::{Buffer, PrepareError, Prepared};
use exec_assign::{AssignFault, ToldNode};
use message_values::{BlobChange, Item, Refusal};
use pide_base::{ExecId, Never, Part, VersionId};
use prover_core::{Claim, Core, Finish, GiveUp};
use sqlite_items::Items;
use std::alloc::{AllocError, Global};
use std::collections::HashMap;
use std::marker::Model;

/// The documents of both sides. Contracts see the editor's, and all that has happened.
#[derive(Drop)]
pub(crate) struct Desk {
    buffer: Buffer,
    core: Core<Tally>,
    last: u64,
    jobs: Table<Job<u64>>,
}

impl Model for Desk {
    ghost use Rattle.prover_core.specs.Looked.{looked};
    ghost use Rattle.test_editor.specs.Tally.{counting};
    ghost use Rattle.test_editor.specs.Desk.{DeskState, IsDesk};

    ghost Value = { DeskState };

    ghost view = { λ d. record { buffer = d.buffer; past = d.core.past } };

    ghost invariant = { λ d. IsDesk counting d.buffer d.core.past d.last
        (λ who. looked d.jobs who) };
}

/// What became of an update.
#[derive(Drop)]
pub(crate) enum Updated {
    /// The nodes whose rows are others than before.
    Told(Vec<ToldNode>),
    Refused(Refusal),
    /// Its version is not above all before, or all has ended.
    Late,
}

/// What became of a part that a worker holds.
#[derive(Drop)]
pub(crate) enum Left {
    Finished(Part),
    Dropped(Part),
    /// It is still wanted, and the worker goes on.
    GoesOn(Part),
    /// The worker holds none.
    Nothing,
}

impl Desk {
    /// Nothing has happened.
    pub(crate) fn new(alloc: Global) -> Result<Desk, AllocError> {
        fits_law();
        let core = Core::new(alloc)?;
        Ok(Desk {
            buffer: Buffer::new(),
            core,
            last: 0,
            jobs: HashMap::new(alloc),
        })
    }

    /// The editor's document.
    pub(crate) fn buffer(&self) -> &Buffer {
        &self.buffer
    }

    /// The prover's document.
    pub(crate) fn core(&self) -> &Core<Tally> {
        &self.core
    }

    /// Makes a version of this id.
    pub(crate) fn update(
        &mut self,
        alloc: Global,
        id: VersionId,
        items: &[Item],
        blobs: &[BlobChange],
    ) -> Result<Updated, AllocError> {
        if self.core.ended() || id.number() <= self.last {
            return Ok(Updated::Late);
        }
        match self.buffer.prepare(alloc, 0, items, blobs) {
            Err(PrepareError::NoMemory) => Err(AllocError),
            Err(PrepareError::Refused(refusal)) => Ok(Updated::Refused(refusal)),
            Ok(made) => self.make(alloc, id, made),
        }
    }

    /// Makes the version that was prepared.
    fn make(&mut self, alloc: Global, id: VersionId, made: Prepared) -> Result<Updated, AllocError>
        requires going { has_ended self.old.past ≡ false }
        requires newer { (doc counting self.old.past).last < id }
        requires prepared { IsPreparedBy self.old.buffer made }
    {
        fits_law();
        let plan = match self.core.plan(
            alloc,
            id,
            made.nodes(),
            made.blobs(),
            made.changed(),
            made.untouched(),
        ) {
            Err(AssignFault::NoMemory) => return Err(AllocError),
            Err(AssignFault::Limit) => return Ok(Updated::Refused(Refusal::Limit)),
            Ok(plan) => plan,
        };
        let told = self.core.update(plan);
        self.buffer.commit(made);
        self.last = id.number();
        Ok(Updated::Told(told))
    }

    /// The worker takes the first ready part, where there is one and it holds none.
    pub(crate) fn claim(&mut self, alloc: Global, who: u32) -> Result<Option<Part>, AllocError> {
        match self.core.claim(alloc, &Tally, who) {
            Claim::Nothing => Ok(None),
            Claim::NoMemory => Err(AllocError),
            Claim::Job { job, flag } => {
                drop(flag);
                let part = job.part();
                put(&mut self.jobs, who, job)?;
                Ok(Some(part))
            }
        }
    }

    /// The worker works on the part that it holds to the end.
    pub(crate) fn finish(&mut self, alloc: Global, who: u32) -> Result<Left, AllocError> {
        job_law::<Tally>();
        core_law::<Tally>();
        let Some(job) = take_out(&mut self.jobs, who) else {
            return Ok(Left::Nothing);
        };
        let part = job.part();
        match job.run(alloc, &Tally, &mut Never::new()) {
            Ran::Stopped(_) | Ran::NoMemory(_) => Err(AllocError),
            Ran::Done(done) => match self.core.finish(who, done) {
                Finish::Finished => Ok(Left::Finished(part)),
                Finish::Dropped => Ok(Left::Dropped(part)),
            },
        }
    }

    /// The worker gives up the part that it holds, unless that is still wanted.
    pub(crate) fn give_up(&mut self, who: u32) -> Result<Left, AllocError> {
        core_law::<Tally>();
        let Some(job) = take_out(&mut self.jobs, who) else {
            return Ok(Left::Nothing);
        };
        let part = job.part();
        match self.core.give_up(who, job) {
            GiveUp::Dropped => Ok(Left::Dropped(part)),
            GiveUp::GoOn(job) => {
                put(&mut self.jobs, who, job)?;
                Ok(Left::GoesOn(part))
            }
        }
    }

    /// Cancels an execution; nothing is said where all has ended.
    pub(crate) fn cancel(&mut self, exec: ExecId) -> Option<Cancelling> {
        if self.core.ended() {
            return None;
        }
        Some(self.core.cancel(exec))
    }

    /// Removes versions; nothing is said where all has ended.
    pub(crate) fn remove(
        &mut self,
        versions: Items<VersionId>,
    ) -> Result<Option<Removing>, AllocError> {
        if self.core.ended() {
            return Ok(None);
        }
        Ok(Some(self.core.remove(versions)?))
    }

    /// Ends all, where it has not ended.
    pub(crate) fn end(&mut self) {
        if !self.core.ended() {
            self.core.end();
        }
    }
}
