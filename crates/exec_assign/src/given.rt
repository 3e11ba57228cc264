//! What one node is given.
ghost use Rattle.std.specs.Prelude.{◌≡◌, ◌<◌, ◌≤◌, ⊤, ℕ, List, [], true, length, slice_get, Some, Err, IfOk, MatchOption, IsTrue};
ghost use Rattle.doc_nodes.specs.Looks.{marked};
ghost use Rattle.pide_base.specs.Ids.{id_end};
ghost use Rattle.doc_nodes.specs.Wanted.{wanted_at};
ghost use Rattle.exec_rules.specs.Assigning.{kept_of, rows_in, assigned_in, greater, node_given, head_at, given};
ghost use Rattle.exec_assign.specs.declared.fault.AssignFault.TheVariants.{Limit};
ghost use Rattle.exec_assign.specs.Untouched.{IsUntouched};
ghost use Rattle.exec_assign.specs.Standing.{Stands};

use crate::cancelled::Cancelled;
use crate::evaluating::evaluations;
use crate::fault::AssignFault;
use crate::printing::with_prints;
use crate::same::same_key;
use crate::sharing::shared;
use crate::update::Update;
use doc_nodes::{Node, Shared};
use exec_rules::{Assigned, Head, Home, Key, Row, key_law};
use joined_results::both;
use pide_base::NodeName;
use sqlite_items::Items;
use std::alloc::{AllocError, Global};
use std::marker::Model;

/// What one node is given: its rows, what its new executions go by, and the next number. Where it
/// stands, all is as in the version before.
#[derive(Drop)]
pub(crate) struct Given {
    pub(crate) assigned: Shared<Assigned>,
    pub(crate) homes: Vec<Home>,
    pub(crate) next: u64,
}

impl Model for Given {
    ghost use Rattle.exec_rules.specs.Assigning.{Given};

    ghost Value = { Given };

    ghost view = { λ given. record {
      assigned = given.assigned;
      homes = given.homes.items;
      next = given.next;
    } };
}

impl<'a, C: Cancelled> Update<'a, C> {
    /// What the node of this name had, where it is untouched and has it still.
    pub(crate) fn standing(
        &self,
        place: usize,
        name: &NodeName,
        node: &Node,
        key: &Key,
    ) -> Option<&Shared<Assigned>>
        requires { slice_get self.now.nodes place ≡ Some (name.now, node.now) }
        ensures { MatchOption result ⊤ (λ old.
            Stands self.now place (name.now, node.now) key.now old.now) }
    {
        key_law();
        if !self.is_untouched(place) || !self.changed.is_empty() {
            return None;
        }
        let old = self.assigned_before(name)?;
        if same_key(key, old.get().key.get()) && self.wanted(place) <= old.get().rows.len() {
            Some(old)
        } else {
            None
        }
    }

    /// Whether the node at the place is marked as untouched.
    fn is_untouched(&self, place: usize) -> bool
        ensures { result ≡ true → (name : List ℕ) (node : Node)
            → slice_get self.now.nodes place ≡ Some (name, node)
            → IsUntouched self.now (name, node) }
    {
        place < self.untouched.len() && self.untouched[place]
    }

    /// What the node at the place is given.
    pub(crate) fn given(
        &self,
        alloc: Global,
        place: usize,
        name: &NodeName,
        node: &Node,
        key: Key,
        next: u64,
    ) -> Result<Given, AssignFault>
        requires at { slice_get self.now.nodes place ≡ Some (name.now, node.now) }
        requires first { 1 ≤ next }
        requires next { next ≤ id_end }
        ensures ok { IfOk result
            (λ made. made ≡ given self.now place (name.now, node.now) key next) }
        ensures within { IfOk result (λ made. made.next ≤ id_end) }
        ensures limit { result ≡ Err Limit
            → id_end < (given self.now place (name.now, node.now) key next).next }
    {
        let kept = self.kept_of(name, node, &key);
        let count = kept.max(self.wanted(place));
        let head = self.head(alloc, place, name, node, shared(alloc, key)?)?;
        self.given_by(alloc, name, node, &head, kept, count, next)
    }

    /// What a node with this head is given, when its first commands keep their evaluations, and so
    /// many are assigned.
    fn given_by(
        &self,
        alloc: Global,
        name: &NodeName,
        node: &Node,
        head: &Shared<Head>,
        kept: usize,
        count: usize,
        next: u64,
    ) -> Result<Given, AssignFault>
        requires rows { kept ≤ length (rows_in self.now.tip name.now) }
        requires kept { kept ≤ count }
        requires count { count ≤ length node.now.entries }
        requires first { 1 ≤ next }
        requires next { next ≤ id_end }
        ensures ok { IfOk result (λ made. made
            ≡ node_given self.now (name.now, node.now) head.now kept count next) }
        ensures within { IfOk result (λ made. made.next ≤ id_end) }
        ensures limit { result ≡ Err Limit → id_end
            < (node_given self.now (name.now, node.now) head.now kept count next).next }
    {
        let old = self.rows_before(name);
        let made = evaluations(alloc, old, kept, count, next)?;
        let live = self.live_prints(alloc, old, kept)?;
        let first_print = next + (count - kept) as u64;
        let entries = node.entries.get().as_slice();
        let printed = with_prints(alloc, entries, made.as_slice(), &live, first_print)?;
        let homes = self.homes(alloc, node, head, made.as_slice(), &live, kept);
        drop(live);
        drop(made);
        let (homes, assigned) = both(homes, assigned(alloc, head.get(), printed.rows))?;
        Ok(Given {
            assigned,
            homes,
            next: printed.next,
        })
    }
}

/// These rows with the key of the head.
fn assigned(alloc: Global, head: &Head, rows: Items<Row>) -> Result<Shared<Assigned>, AllocError>
    ensures { IfOk result (λ made. made ≡ record { key = head.now.key; rows = rows }) }
{
    let key = head.key.copy()?;
    shared(alloc, Assigned { key, rows })
}
