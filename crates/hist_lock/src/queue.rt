//! The queue: a caller draws a ticket, waits until it is served, has the state, and passes the turn
//! on.
ghost use Rattle.std.specs.Prelude.{◌≡◌, ◌%◌, ◌^◌, ◌<◌, ◌++◌, ℕ, [], ◌∷◌, length, Some, None, IsTrue, IsFalse};
ghost use mathlib.Core.List.{IsPrefix};
ghost use Rattle.hist_lock.specs.Known.{Fits};
ghost use Rattle.hist_lock.specs.Entries.{own};
ghost use Rattle.hist_lock.specs.Passes.{IsSameSeat, IsSeatOf};
ghost use Rattle.hist_lock.specs.Steps.{Carries, CarriesMore, CarriesSeen, HasSeen, HasTicket, HasTurn, IsOneMore};
ghost use Rattle.hist_lock.specs.Steps.{SeesEntry, SeesList, TakesTicket, TakesTurn, seeing, staged};
ghost use Rattle.hist_lock.specs.declared.view.Stage.TheVariants.{Idle};

use crate::news::Role;
use crate::rule::{ENTRIES, Place, SERVED, TICKETS};
use crate::shared::Shared;
use crate::state::State;
use crate::steps::{Append, Draw, Look, PassOn, Watch};
use std::hint::spin_loop;
use std::sync::Wait;

/// The low half of a word, on which threads park.
pub(crate) fn low_half(word: u64) -> u32
    ensures { result ≡ word % 2 ^ 32 }
{
    (word % 0x1_0000_0000) as u32
}

impl<S: State> Shared<S> {
    fn draw(&self, place: &mut Place<S>) -> u64
        requires own { IsSeatOf self.now place.old }
        requires idle { place.old.me.0.stage ≡ Idle }
        ensures own { IsSameSeat place.old place.new }
        ensures ticket { TakesTicket place.old.me result place.new.me }
    {
        self.table.shared.fetch_add::<Draw>(place, TICKETS, 1)
    }

    fn wait_turn<R: Wait>(&self, rt: &R, place: &mut Place<S>, ticket: u64)
        requires own { IsSeatOf self.now place.old }
        requires waits { HasTicket place.old.me ticket }
        ensures own { IsSameSeat place.old place.new }
        ensures turn { TakesTurn S.entries S.whose S.legal place.old.me place.new.me }
    {
        for _ in rt.forever() {
            let served = self.table.shared.load::<Look<S>>(place, SERVED);
            if served == ticket {
                return;
            }
            spin_loop();
        }
        unreachable!()
    }

    // The state leaves its slot.
    fn take(&self, place: &mut Place<S>) -> S
        requires own { IsSeatOf self.now place.old }
        requires holds { (x : S) × Carries place.old.me (Some x) }
        ensures own { IsSameSeat place.old place.new }
        ensures taken { Carries place.old.me (Some result) }
        ensures empty { place.new.me ≡ (place.old.me.0, (0, None) ∷ []) }
    {
        self.table.shared.exchange(place, 0, None).unwrap()
    }

    fn put(&self, place: &mut Place<S>, state: S)
        requires own { IsSeatOf self.now place.old }
        requires holds { Carries place.old.me None }
        ensures own { IsSameSeat place.old place.new }
        ensures put { place.new.me ≡ (place.old.me.0, (0, Some state) ∷ []) }
    {
        let left = self.table.shared.exchange(place, 0, Some(state));
        let None = left else { unreachable!() };
    }

    // The entry that the call made is appended.
    fn append(&self, place: &mut Place<S>)
        requires own { IsSeatOf self.now place.old }
        requires turn { HasTurn place.old.me }
        requires adds { CarriesMore S.entries S.whose S.legal place.old.me }
        ensures own { IsSameSeat place.old place.new }
        ensures appended { SeesEntry S.entries S.whose S.legal place.old.me place.new.me }
    {
        self.table.shared.fetch_add::<Append<S>>(place, ENTRIES, 1);
    }

    fn pass_on(&self, place: &mut Place<S>)
        requires own { IsSeatOf self.now place.old }
        requires turn { HasTurn place.old.me }
        requires holds { CarriesSeen S.entries S.whose S.legal place.old.me }
        ensures own { IsSameSeat place.old place.new }
        ensures passed { place.new.me ≡ (staged place.old.me.0 Idle, []) }
    {
        self.table.shared.fetch_add::<PassOn>(place, SERVED, 1);
    }

    /// Waits for the turn, and takes the state.
    pub(crate) fn enter<R: Wait>(&self, rt: &R, place: &mut Place<S>) -> S
        requires own { IsSeatOf self.now place.old }
        requires ready { (place.old.me.0.stage ≡ Idle) × (place.old.me.1 ≡ []) }
        ensures own { IsSameSeat place.old place.new }
        ensures fits { Fits S.entries S.whose S.legal place.old.me.0.view result }
        ensures turn { HasTurn place.new.me × Carries place.new.me None }
        ensures seen { SeesList place.old.me (S.entries result) place.new.me }
    {
        let ticket = self.draw(place);
        self.wait_turn(rt, place, ticket);
        self.take(place)
    }

    /// Gives the state back, with one entry more where `adds` is true, and passes the turn on.
    pub(crate) fn leave(&self, place: &mut Place<S>, state: S, adds: bool)
        requires own { IsSeatOf self.now place.old }
        requires turn { HasTurn place.old.me }
        requires holds { Carries place.old.me None }
        requires adds { IsTrue adds
            → IsOneMore S.entries S.whose S.legal place.old.me.0.view state }
        requires keeps { IsFalse adds → S.entries state ≡ place.old.me.0.view.seen }
        ensures own { IsSameSeat place.old place.new }
        ensures added { IsTrue adds → place.new.me
            ≡ (staged (seeing S.entries S.whose S.legal place.old.me.0 state) Idle, []) }
        ensures kept { IsFalse adds → place.new.me ≡ (staged place.old.me.0 Idle, []) }
    {
        self.put(place, state);
        if adds {
            self.append(place);
        }
        self.pass_on(place);
    }

    // Sees the history as it is, and says how many entries it has.
    fn see(&self, place: &mut Place<S>) -> u64
        requires own { IsSeatOf self.now place.old }
        requires idle { place.old.me.0.stage ≡ Idle }
        ensures own { IsSameSeat place.old place.new }
        ensures begins { IsPrefix place.old.me.0.view.seen place.new.me.0.view.seen }
        ensures count { result ≡ length place.new.me.0.view.seen }
        ensures legal { S.legal place.new.me.0.view.seen }
        ensures mine { own S.whose place.old.me.0.view.caller place.new.me.0.view.seen
            ≡ place.old.me.0.view.mine }
        ensures rest { HasSeen place.old.me place.new.me }
    {
        self.table.shared.load::<Watch<S>>(place, ENTRIES)
    }

    /// Waits until the history has more entries than these, and more news for the role than was
    /// heard, and says how many entries.
    ///
    /// The count of news is heard before the history is seen, and told after an entry is appended:
    /// so an entry that isn't seen here is one whose news is still to come.
    pub(crate) fn watch<R: Wait>(
        &self,
        rt: &R,
        place: &mut Place<S>,
        count: u64,
        role: Role,
        heard: u64,
    ) -> u64
        requires own { IsSeatOf self.now place.old }
        requires idle { place.old.me.0.stage ≡ Idle }
        requires count { count ≡ length place.old.me.0.view.seen }
        ensures own { IsSameSeat place.old place.new }
        ensures begins { IsPrefix place.old.me.0.view.seen place.new.me.0.view.seen }
        ensures more { count < length place.new.me.0.view.seen }
        ensures count { result ≡ length place.new.me.0.view.seen }
        ensures legal { S.legal place.new.me.0.view.seen }
        ensures mine { own S.whose place.old.me.0.view.caller place.new.me.0.view.seen
            ≡ place.old.me.0.view.mine }
        ensures rest { HasSeen place.old.me place.new.me }
    {
        let mut heard = heard;
        'watching: for _ in rt.forever() {
            heard = self.listeners.of(role).wait(rt, heard);
            let found = self.see(place);
            if found != count {
                return found;
            }
        }
        unreachable!()
    }
}
