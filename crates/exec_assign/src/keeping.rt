//! How many commands keep their evaluations.
ghost use Rattle.std.specs.Prelude.{◌≡◌, ◌≤◌, length, Some};
ghost use Rattle.exec_rules.specs.Kept.{same_blob, keeps, kept_count};
ghost use Rattle.exec_rules.specs.Assigning.{times, rows_in, kept_of};
ghost use Rattle.exec_assign.specs.Keeping.{keeps_at};

use crate::cancelled::Cancelled;
use crate::same::same_key;
use crate::update::Update;
use doc_nodes::{BlobName, Entry, Node};
use exec_rules::{Key, Row, kept_law};
use pide_base::NodeName;

impl<'a, C: Cancelled> Update<'a, C> {
    /// How many commands of the node keep their evaluations: none where its key is another.
    pub(crate) fn kept_of(&self, name: &NodeName, node: &Node, key: &Key) -> usize
        ensures count { result ≡ kept_of self.now (name.now, node.now) key.now }
        ensures commands { result ≤ length node.now.entries }
        ensures rows { result ≤ length (rows_in self.now.tip name.now) }
    {
        match self.assigned_before(name) {
            Some(old) if same_key(key, old.get().key.get()) => self.kept(
                node.entries.get().as_slice(),
                self.entries_before(name),
                old.get().rows.as_slice(),
            ),
            _ => 0,
        }
    }

    fn kept(&self, now: &[Entry], before: &[Entry], rows: &[Row]) -> usize
        ensures count { result ≡ kept_count (times self.now) now.now before.now rows.now }
        ensures commands { result ≤ length now.now }
        ensures rows { result ≤ length rows.now }
    {
        kept_law();
        let mut count = 0;
        'front: while self.keeps_at(now, before, rows, count) {
            count += 1;
        }
        count
    }

    /// Whether the command at the place can keep its evaluation.
    fn keeps_at(&self, now: &[Entry], before: &[Entry], rows: &[Row], place: usize) -> bool
        ensures { result ≡ keeps_at (times self.now) now.now before.now rows.now place }
    {
        match (now.get(place), before.get(place), rows.get(place)) {
            (Some(now), Some(before), Some(row)) => self.keeps(now, before, row),
            _ => false,
        }
    }

    fn keeps(&self, now: &Entry, before: &Entry, row: &Row) -> bool
        ensures { result ≡ keeps (times self.now) now.now before.now row.now }
    {
        now.command == before.command
            && !self.cancelled.is_cancelled(row.evaluation)
            && self.same_blob(&now.needs, &before.needs)
    }

    /// Whether both ask for the same blob, and find the same text.
    fn same_blob(&self, now: &Option<BlobName>, before: &Option<BlobName>) -> bool
        ensures { result ≡ same_blob (times self.now) now.now before.now }
    {
        match (now, before) {
            (None, None) => true,
            (Some(now), Some(before)) => self.same_named(now, before),
            _ => false,
        }
    }

    fn same_named(&self, now: &BlobName, before: &BlobName) -> bool
        ensures { result ≡ same_blob (times self.now) (Some now.now) (Some before.now) }
    {
        now.cmp(before).is_eq() && self.changed.get(now).is_none()
    }
}
