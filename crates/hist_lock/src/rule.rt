//! The rule of the table: what its words count, modulo 2^64, and that its slot is the state's
//! place.
use crate::state::State;
use crate::view::Doing;
use atomic_table::{Seat, TableRule};
use std::marker::PhantomData;
use std::snapshot::Snapshot;

/// The word that counts the tickets drawn.
pub const TICKETS: usize = 0;

/// The word that counts the tickets served.
pub const SERVED: usize = 1;

/// The word that counts the entries.
pub const ENTRIES: usize = 2;

/// The rule: one legal history, of which each seat knows a part.
pub struct OneHistory<S> {
    of: PhantomData<S>,
}

impl<S: State> TableRule<Option<S>, Doing<S::Entry>, Snapshot<S>> for OneHistory<S> {
    ghost use Rattle.hist_lock.specs.Rule.{Kept, first_seat};

    ghost holds = { λ _. Kept S.entries S.whose S.legal };

    ghost first = { λ key. first_seat (S.entries key.value) };
}

/// A seat at the table, with what it holds.
pub type Place<S> = Seat<Option<S>, Doing<<S as State>::Entry>>;
