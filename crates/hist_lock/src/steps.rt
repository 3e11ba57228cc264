//! The kinds of step at the table.
ghost use Rattle.hist_lock.specs.Steps.{drew, looked, appended, passed, watched, learned, parent_seat, child_seat, absorbed, spent_seat};

use crate::state::State;
use crate::view::Doing;
use atomic_table::{Join, Play, Split};
use std::marker::PhantomData;

/// Draws a ticket.
pub(crate) struct Draw;

impl<S, E> Play<Option<S>, Doing<E>> for Draw {
    ghost then = { drew };
}

/// Looks whose turn it is, and takes the state where it is the seat's.
pub(crate) struct Look<S> {
    of: PhantomData<S>,
}

impl<S: State> Play<Option<S>, Doing<S::Entry>> for Look<S> {
    ghost then = { looked S.entries S.whose S.legal };
}

/// Appends the entry that the call made. It is the moment of the entry.
pub(crate) struct Append<S> {
    of: PhantomData<S>,
}

impl<S: State> Play<Option<S>, Doing<S::Entry>> for Append<S> {
    ghost then = { appended S.entries S.whose S.legal };
}

/// Gives the state back, and passes the turn on.
pub(crate) struct PassOn;

impl<S, E> Play<Option<S>, Doing<E>> for PassOn {
    ghost then = { passed };
}

/// Sees the history as it is.
pub(crate) struct Watch<S> {
    of: PhantomData<S>,
}

impl<S: State> Play<Option<S>, Doing<S::Entry>> for Watch<S> {
    ghost then = { watched S.entries S.whose S.legal };
}

/// Compares what a seat has seen with what it was told of.
pub(crate) struct Learn<S> {
    of: PhantomData<S>,
}

impl<S: State> Play<Option<S>, Doing<S::Entry>> for Learn<S> {
    ghost then = { learned S.entries S.whose S.legal };
}

/// Makes the next caller's seat.
pub(crate) struct Cut;

impl<E> Split<Doing<E>> for Cut {
    ghost left = { parent_seat };

    ghost right = { child_seat };
}

/// Takes in what another seat knows.
pub(crate) struct Glue;

impl<E> Join<Doing<E>> for Glue {
    ghost both = { absorbed };

    ghost spent = { spent_seat };
}
