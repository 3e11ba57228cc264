//! How a lock begins and ends.
ghost use Rattle.std.specs.Prelude.{◌≡◌, IfOk, IfErr};
ghost use Rattle.std.specs.List.{All};
ghost use Rattle.hist_lock.specs.Known.{Fits};
ghost use Rattle.hist_lock.specs.Passes.{view, IsPassOf};
ghost use Rattle.hist_lock.specs.Callers.{AllJoined, HasNoOther, HasTheirs, first_view};

use crate::entrance::Entrance;
use crate::listeners::Listeners;
use crate::news::{News, Role};
use crate::pass::Pass;
use crate::shared::Shared;
use crate::state::State;
use atomic_table::{Refused, Table};
use std::alloc::{AllocFailed, Global};
use std::snapshot::Snapshot;

impl<S: State> Shared<S> {
    /// A lock round a state whose entries are all caller 0's, and the pass of caller 0, the reader.
    /// For want of memory the state comes back.
    pub fn new(alloc: Global, state: S) -> Result<(Shared<S>, Pass<S>), AllocFailed<S>>
        requires legal { S.legal (S.entries state) }
        requires first { All (λ e. S.whose e ≡ 0) (S.entries state) }
        ensures own { IfOk result (λ r. IsPassOf r.0 r.1) }
        ensures first { IfOk result (λ r. view r.1 ≡ first_view (S.entries state)) }
        ensures err { IfErr result (λ r. r.value ≡ state) }
    {
        let count = state.count();
        let about = Snapshot::of(&state);
        let mut slots = Vec::new(alloc);
        if let Err(AllocFailed { value }) = slots.push(Some(state)) {
            slots.destroy_empty();
            return Err(AllocFailed {
                value: value.unwrap(),
            });
        }
        match Table::new(alloc, &[0, 0, count], slots, &about) {
            Ok((table, place)) => {
                let shared = Shared {
                    table,
                    entrance: Entrance::new(),
                    listeners: Listeners::new(),
                };
                let pass = Pass {
                    place,
                    count,
                    role: Role::Reader,
                    heard: 0,
                    is_inside: false,
                    stays: false,
                    news: News::for_none(),
                };
                Ok((shared, pass))
            }
            Err(Refused { mut slots }) => {
                let state = slots.pop().unwrap().unwrap();
                slots.destroy_empty();
                Err(AllocFailed { value: state })
            }
        }
    }

    /// Takes the state out, once each pass that was split has been joined into the first one.
    pub fn close(self, pass: Pass<S>) -> S
        requires own { IsPassOf self pass }
        requires first { (view pass).caller ≡ 0 }
        requires all { AllJoined (view pass) }
        ensures fits { Fits S.entries S.whose S.legal (view pass) result }
        ensures theirs { HasTheirs S.whose (view pass) (S.entries result) }
        ensures no_other { HasNoOther S.whose (view pass) (S.entries result) }
    {
        let Shared { table, .. } = self;
        let Pass { place, .. } = pass;
        let mut closed = table.close_with(place);
        let state = closed.take(0);
        closed.free();
        state.unwrap()
    }
}
