//! What an update assigns.
ghost use Rattle.std.specs.Prelude.{◌≡◌, ◌<◌, ◌≤◌, ◌++◌, ℕ, [], true, false, length, slice_set, slice_index_or, Err, IfOk, OnOk};
ghost use Rattle.pide_base.specs.Ids.{id_end};
ghost use Rattle.exec_rules.specs.Keys.{nothing_assigned};
ghost use Rattle.exec_rules.specs.Assigning.{Work, assign_one, assignment};
ghost use Rattle.exec_assign.specs.declared.fault.AssignFault.TheVariants.{Limit};
ghost use Rattle.exec_assign.specs.Fitting.{RowsFit};
ghost use Rattle.exec_assign.specs.Telling.{update_version};
ghost use Rattle.exec_assign.specs.Work.{HaveStood, IsWork};

use crate::cancelled::Cancelled;
use crate::fault::AssignFault;
use crate::given::Given;
use crate::keying::key_of;
use crate::sharing::shared;
use crate::update::Update;
use doc_nodes::Shared;
use exec_rules::{Assigned, Home, Key, rows_law};
use joined_results::both;
use sqlite_items::Items;
use std::alloc::{AllocError, Global};
use std::mem;

/// What an update assigns.
#[derive(Drop)]
pub struct Assignment {
    /// What each node is assigned, in the order of names.
    pub assigned: Items<Shared<Assigned>>,
    /// What the new executions go by, in the order of their numbers.
    pub homes: Items<Home>,
    /// The number of the next execution, which is no id where there is none left.
    pub next: u64,
    /// Marks, in the order of names: a node that is marked has what it had.
    pub standing: Items<bool>,
}

/// What is done so far, by place.
#[derive(Drop)]
struct Progress {
    all: Vec<Shared<Assigned>>,
    homes: Vec<Home>,
    next: u64,
    standing: Vec<bool>,
}

/// Nothing, for so many nodes.
fn nothing(alloc: Global, count: usize) -> Result<Vec<Shared<Assigned>>, AllocError>
    ensures len { IfOk result (λ all. length all.items ≡ count) }
    ensures none { IfOk result (λ all. (p : ℕ)
        → slice_index_or all.items p nothing_assigned ≡ nothing_assigned) }
{
    let none = no_rows(alloc)?;
    let all = copies(alloc, &none, count);
    drop(none);
    all
}

/// What a node without commands is assigned.
fn no_rows(alloc: Global) -> Result<Shared<Assigned>, AllocError>
    ensures { IfOk result (λ none. none ≡ nothing_assigned) }
{
    let key = shared(alloc, Key::Lasts(Items::new(alloc)))?;
    let rows = Items::new(alloc);
    shared(alloc, Assigned { key, rows })
}

/// So many owners of it more.
fn copies(
    alloc: Global,
    none: &Shared<Assigned>,
    count: usize,
) -> Result<Vec<Shared<Assigned>>, AllocError>
    requires { none.now ≡ nothing_assigned }
    ensures len { IfOk result (λ all. length all.items ≡ count) }
    ensures none { IfOk result (λ all. (p : ℕ)
        → slice_index_or all.items p nothing_assigned ≡ nothing_assigned) }
{
    let mut all = Vec::new(alloc);
    'owners: for _ in 0..count {
        all.push(none.copy()?)?;
    }
    Ok(all)
}

impl Progress {
    /// Takes in what the node at the place is given.
    fn give(&mut self, place: usize, given: Given) -> Result<(), AllocError>
        requires all { place < length self.old.all.items }
        requires standing { place < length self.old.standing.items }
        ensures all { OnOk result
            (self.new.all.items ≡ slice_set self.old.all.items place given.assigned) }
        ensures homes { OnOk result (self.new.homes.items ≡ self.old.homes.items ++ given.homes) }
        ensures next { OnOk result (self.new.next ≡ given.next) }
        ensures standing { OnOk result
            (self.new.standing.items ≡ slice_set self.old.standing.items place false) }
    {
        let Given {
            assigned,
            mut homes,
            next,
        } = given;
        drop(mem::replace(&mut self.all[place], assigned));
        self.standing[place] = false;
        self.next = next;
        let taken = self.homes.append(&mut homes);
        drop(homes);
        taken
    }

    /// The node at the place has what it had.
    fn keep(&mut self, place: usize, old: Shared<Assigned>)
        requires all { place < length self.old.all.items }
        requires standing { place < length self.old.standing.items }
        ensures all { self.new.all.items ≡ slice_set self.old.all.items place old }
        ensures homes { self.new.homes.items ≡ self.old.homes.items }
        ensures next { self.new.next ≡ self.old.next }
        ensures standing { self.new.standing.items
            ≡ slice_set self.old.standing.items place true }
    {
        drop(mem::replace(&mut self.all[place], old));
        self.standing[place] = true;
    }
}

impl<'a, C: Cancelled> Update<'a, C> {
    /// What the update assigns, node by node in the order of imports, when the number of the next
    /// execution is this. `Limit` is answered exactly where the number of a new execution would be
    /// no id.
    pub fn assign(&self, alloc: Global, next: u64) -> Result<Assignment, AssignFault>
        requires first { 1 ≤ next }
        requires next { next ≤ id_end }
        ensures assigned { IfOk result
            (λ made. made.assigned ≡ (assignment self.now next).assigned) }
        ensures homes { IfOk result (λ made. made.homes ≡ (assignment self.now next).homes) }
        ensures next { IfOk result (λ made. made.next ≡ (assignment self.now next).next) }
        ensures within { IfOk result (λ made. made.next ≤ id_end) }
        ensures limit { result ≡ Err Limit → id_end < (assignment self.now next).next }
        ensures rows { IfOk result (λ made. RowsFit (update_version self.now made.assigned)) }
        ensures standing { IfOk result (λ made. HaveStood self.now made.standing
            (λ p. slice_index_or made.assigned p nothing_assigned)) }
    {
        rows_law();
        let mut progress = self.begun(alloc, next)?;
        'places: for place in self.graph().order() {
            self.assign_one(alloc, &mut progress, *place)?;
        }
        Ok(Assignment {
            assigned: Items::from_vec(progress.all),
            homes: Items::from_vec(progress.homes),
            next: progress.next,
            standing: Items::from_vec(progress.standing),
        })
    }

    /// Nothing is done.
    fn begun(&self, alloc: Global, next: u64) -> Result<Progress, AllocError>
        requires first { 1 ≤ next }
        requires next { next ≤ id_end }
        ensures { IfOk result (λ begun. IsWork self.now begun.all.items begun.homes.items
            begun.next begun.standing.items
            (record { done = []; homes = []; next = next })) }
    {
        let count = self.nodes.len();
        let marks = vec![in alloc; false; count];
        let (all, standing) = both(nothing(alloc, count), marks)?;
        Ok(Progress {
            all,
            homes: Vec::new(alloc),
            next,
            standing,
        })
    }

    /// One node more, by its place.
    fn assign_one(
        &self,
        alloc: Global,
        progress: &mut Progress,
        place: usize,
    ) -> Result<(), AssignFault>
        requires all { length progress.old.all.items ≡ length self.now.nodes }
        requires standing { length progress.old.standing.items ≡ length self.now.nodes }
        requires first { 1 ≤ progress.old.next }
        requires next { progress.old.next ≤ id_end }
        ensures ok { (work : Work) → IsWork self.now progress.old.all.items
            progress.old.homes.items progress.old.next progress.old.standing.items work
            → OnOk result (IsWork self.now progress.new.all.items progress.new.homes.items
            progress.new.next progress.new.standing.items (assign_one self.now work place)) }
        ensures limit { (work : Work) → IsWork self.now progress.old.all.items
            progress.old.homes.items progress.old.next progress.old.standing.items work
            → result ≡ Err Limit → id_end < (assign_one self.now work place).next }
    {
        let Some((name, node)) = self.nodes.at(place) else {
            return Ok(());
        };
        let aims = self.graph.aims(place);
        let key = key_of(alloc, self.nodes, &self.graph, &progress.all, node, aims)?;
        if let Some(old) = self.standing(place, name, node, &key) {
            drop(key);
            progress.keep(place, old.copy()?);
            return Ok(());
        }
        let given = self.given(alloc, place, name, node, key, progress.next)?;
        progress.give(place, given)?;
        Ok(())
    }
}
