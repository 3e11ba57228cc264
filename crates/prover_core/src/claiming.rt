//! Claims.
ghost use Rattle.std.specs.Prelude.{◌≡◌, ◌+◌, ◌<◌, ◌≤◌, ℕ, false, length, Some, None, IfOk, IfSome, IfNone, OnOk};
ghost use Rattle.std.specs.HashMap.{hash_map_len, spare};
ghost use Rattle.pide_base.specs.declared.part.Part.{Part};
ghost use Rattle.core_tables.specs.Tasks.{standing};
ghost use Rattle.core_tables.specs.Ready.{IsNext, IsReadyPart};
ghost use Rattle.core_jobs.specs.Fits.{IsJobOf};
ghost use Rattle.core_rules.specs.Standing.{held, has_ended};
ghost use Rattle.core_rules.specs.Doc.{doc};
ghost use Rattle.core_rules.specs.Ready.{first_ready};
ghost use Rattle.core_rules.specs.Legal.{IsLegal};
ghost use Rattle.prover_core.specs.Looked.{looked};
ghost use Rattle.prover_core.specs.Claims.{ClaimedSo};

use crate::following::same;
use crate::prover::Core;
use crate::table::{Table, put, reserve_one};
use core_jobs::{Job, input_of};
use core_rules::{Event, first_law, holders_law, homes_law, tip_law};
use core_tables::TaskQueue;
use doc_nodes::Shared;
use joined_results::{both, each_of_three};
use language::Language;
use pide_base::{Flag, Part};
use std::alloc::{AllocError, Global};
use text_edits::Text;

/// What a claim gives.
#[derive(Drop)]
pub enum Claim<S> {
    /// The job of the first ready part, which the worker now holds, and the flag of its execution,
    /// which is set where that is cancelled or no live version has it any more.
    Job { job: Job<S>, flag: Flag },
    /// Nothing is ready, the worker holds a part, or all has ended.
    Nothing,
    /// There was not enough memory, and nothing was claimed.
    NoMemory,
}

impl<L: Language> Core<L> {
    /// The worker takes the first ready part. The language begins those nodes that a first command
    /// imports and that have no commands.
    pub fn claim(&mut self, alloc: Global, lang: &L, who: u32) -> Claim<L::State>
        ensures claimed { ClaimedSo L.lang who self.old.past result self.new.past }
        ensures legal { IsLegal L.lang self.new.past }
    {
        if self.ended || self.holders.contains_key(&u64::from(who)) {
            return Claim::Nothing;
        }
        match self.first() {
            None => Claim::Nothing,
            Some(part) => self.take(alloc, lang, who, part),
        }
    }

    /// The first ready part: None exactly where none is ready.
    pub fn first(&self) -> Option<Part>
        ensures { result ≡ first_ready L.lang self.now.past }
    {
        tip_law::<L>();
        holders_law::<L>();
        first_law::<L>();
        next_part(&self.queue)
    }

    /// The worker takes the first ready part.
    fn take(&mut self, alloc: Global, lang: &L, who: u32, part: Part) -> Claim<L::State>
        requires going { has_ended self.old.past ≡ false }
        requires idle { held self.old.past who ≡ None }
        requires first { first_ready L.lang self.old.past ≡ Some part }
        ensures claimed { ClaimedSo L.lang who self.old.past result self.new.past }
        ensures legal { IsLegal L.lang self.new.past }
    {
        tip_law::<L>();
        holders_law::<L>();
        first_law::<L>();
        match self.job_of(alloc, lang, &part) {
            Err(_) => Claim::NoMemory,
            Ok((job, flag)) => {
                if make_room(&mut self.holders, &mut self.queue).is_err() {
                    drop(job);
                    drop(flag);
                    return Claim::NoMemory;
                }
                put(&mut self.holders, who, same(&part));
                self.queue.dequeue();
                let claimed = Event::Claimed { who, part };
                self.past.add(claimed);
                Claim::Job { job, flag }
            }
        }
    }

    /// The job of the first ready part, and the flag of its execution.
    fn job_of(
        &self,
        alloc: Global,
        lang: &L,
        part: &Part,
    ) -> Result<(Job<L::State>, Flag), AllocError>
        requires first { first_ready L.lang self.now.past ≡ Some part.now }
        ensures { IfOk result (λ both. (both.0.part ≡ part.now)
            × IsJobOf L.lang (doc L.lang self.now.past).homes both.0) }
    {
        tip_law::<L>();
        holders_law::<L>();
        first_law::<L>();
        homes_law::<L>();
        let Some(known) = self.known.get(&part.exec.number()) else {
            unreachable!()
        };
        let home = known.home.get();
        let nodes = &self.versions.tip().get().nodes;
        let input = input_of(alloc, lang, &self.execs, nodes, home);
        let texts = both(home.source.copy(), copied(&home.blob));
        let (input, (source, blob), flag) = each_of_three(input, texts, known.flag.share())?;
        Ok((Job::new(same(part), source, blob, input), flag))
    }
}

/// The part that is taken next.
fn next_part(queue: &TaskQueue) -> Option<Part>
    ensures some { IfSome result (λ part. IsNext (standing queue.now) part) }
    ensures none { IfNone result ((part : Part) → IsReadyPart (standing queue.now) part → ⊥) }
{
    match queue.ready() {
        [.., last] => Some(same(last)),
        [] => None,
    }
}

/// Makes room for one holder more, and for the forks of all that is held then.
fn make_room(holders: &mut Table<Part>, queue: &mut TaskQueue) -> Result<(), AllocError>
    ensures holders { (who : ℕ) → looked holders.new who ≡ looked holders.old who }
    ensures len { hash_map_len holders.new ≡ hash_map_len holders.old }
    ensures spare { OnOk result (0 < spare holders.new) }
    ensures tasks { (e : ℕ) → standing queue.new e ≡ standing queue.old e }
    ensures count { length queue.new.tasks ≡ length queue.old.tasks }
    ensures ok { OnOk result (hash_map_len holders.new + 1 ≤ queue.new.room) }
    ensures room { queue.old.room ≤ queue.new.room }
{
    reserve_one(holders)?;
    let Some(forks) = holders.len().checked_add(1) else {
        return Err(AllocError);
    };
    queue.reserve(forks, 0)
}

fn copied(text: &Option<Shared<Text>>) -> Result<Option<Shared<Text>>, AllocError>
    ensures { IfOk result (λ copy. copy ≡ text.now) }
{
    match text {
        Some(text) => Ok(Some(text.copy()?)),
        None => Ok(None),
    }
}
