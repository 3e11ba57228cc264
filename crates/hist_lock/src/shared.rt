//! The lock.
ghost use Rattle.std.specs.Prelude.{◌≡◌};

use crate::entrance::Entrance;
use crate::listeners::Listeners;
use crate::rule::OneHistory;
use crate::state::State;
use crate::view::Doing;
use atomic_table::Table;
use std::alloc::Global;
use std::snapshot::Snapshot;

/// A state under a lock, whose callers take turns, in no order that is promised.
#[derive(Drop)]
pub struct Shared<S: State> {
    pub(crate) table: Table<Option<S>, Doing<S::Entry>, Snapshot<S>, OneHistory<S>, Global>,
    /// Where callers wait for their turn. No contract speaks of it, nor of the listeners.
    pub(crate) entrance: Entrance,
    /// Those who wait for a change.
    pub(crate) listeners: Listeners,
    ghost sized: { (table.shared.table_id.words ≡ 3) × (table.shared.table_id.slots ≡ 1) },
}
