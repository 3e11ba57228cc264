//! What callers do with the lock.
ghost use Rattle.std.specs.Prelude.{◌≡◌, ◌^◌, ◌<◌, ◌+◌, length};
ghost use mathlib.Core.List.{IsPrefix};
ghost use Rattle.hist_lock.specs.Entries.{own, IsLonger};
ghost use Rattle.hist_lock.specs.Known.{SeesMore};
ghost use Rattle.hist_lock.specs.Calls.{May, Turned};
ghost use Rattle.hist_lock.specs.Passes.{view, IsPassOf};
ghost use Rattle.hist_lock.specs.Callers.{HasJoined, child, parent};

use crate::news::{News, Role};
use crate::pass::Pass;
use crate::rule::TICKETS;
use crate::shared::Shared;
use crate::state::{State, Turn};
use crate::steps::{Cut, Glue, Learn};
use std::sync::Wait;

impl<S: State> Shared<S> {
    /// Runs a call on the state, as soon as the callers that came before have had their turns.
    pub fn turn<R: Wait, C: Turn<S>>(&self, rt: &R, pass: &mut Pass<S>, call: C) -> C::Answer
        requires own { IsPassOf self.now pass.old }
        requires may { May S.entries S.whose S.legal (C.asks call) (C.gives call) (view pass.old) }
        ensures own { IsPassOf self.now pass.new }
        ensures turned { Turned S.entries S.whose S.legal (C.gives call) (view pass.old) result
            (view pass.new) }
    {
        self.come_in(rt, pass);
        let answer = self.turn_inside(rt, pass, call);
        if pass.stays {
            pass.stays = false;
        } else {
            self.go_out(pass);
        }
        answer
    }

    /// Comes in, and stays inside until the turn after the next one is over, so that no other
    /// caller's turn comes between these two. Until then the caller is not to wait for another.
    pub fn stay<R: Wait>(&self, rt: &R, pass: &mut Pass<S>)
        requires own { IsPassOf self.now pass.old }
        ensures own { IsPassOf self.now pass.new }
        ensures same { view pass.new ≡ view pass.old }
    {
        self.come_in(rt, pass);
        pass.stays = true;
    }

    // Comes in, unless the caller stayed inside.
    fn come_in<R: Wait>(&self, rt: &R, pass: &mut Pass<S>)
        requires own { IsPassOf self.now pass.old }
        ensures own { IsPassOf self.now pass.new }
        ensures same { view pass.new ≡ view pass.old }
    {
        if !pass.is_inside {
            self.entrance.enter(rt);
            pass.is_inside = true;
        }
    }

    // Goes out, and tells those for whom there is news. Whoever has heard it looks at the count of
    // entries after that, and so sees the entry.
    fn go_out(&self, pass: &mut Pass<S>)
        requires own { IsPassOf self.now pass.old }
        ensures own { IsPassOf self.now pass.new }
        ensures same { view pass.new ≡ view pass.old }
    {
        if pass.is_inside {
            self.entrance.leave();
            pass.is_inside = false;
            self.listeners.tell(pass.news);
            pass.news = News::for_none();
        }
    }

    fn turn_inside<R: Wait, C: Turn<S>>(&self, rt: &R, pass: &mut Pass<S>, call: C) -> C::Answer
        requires own { IsPassOf self.now pass.old }
        requires may { May S.entries S.whose S.legal (C.asks call) (C.gives call) (view pass.old) }
        ensures own { IsPassOf self.now pass.new }
        ensures turned { Turned S.entries S.whose S.legal (C.gives call) (view pass.old) result
            (view pass.new) }
    {
        let Pass {
            place,
            count,
            role,
            heard,
            news,
            ..
        } = pass;
        let mut state = self.enter(rt, place);
        let before = state.count();
        let answer = call.run(&mut state);
        let after = state.count();
        *heard = self.listeners.of(*role).now();
        if before < after {
            *news = news.and(state.news());
        }
        self.leave(place, state, before < after);
        *count = after;
        answer
    }

    /// Waits until there are more entries than the caller has seen, and news for its role since its
    /// last turn. It sees them then.
    pub fn wait_change<R: Wait>(&self, rt: &R, pass: &mut Pass<S>)
        requires own { IsPassOf self.now pass.old }
        requires idle { S.idle (view pass.old).seen (view pass.old).caller }
        ensures own { IsPassOf self.now pass.new }
        ensures begins { IsPrefix (view pass.old).seen (view pass.new).seen }
        ensures more { length (view pass.old).seen < length (view pass.new).seen }
        ensures legal { S.legal (view pass.new).seen }
        ensures mine { own S.whose (view pass.new).caller (view pass.new).seen
            ≡ (view pass.new).mine }
        ensures rest { SeesMore (view pass.old) (view pass.new) }
    {
        self.go_out(pass);
        let Pass {
            place,
            count,
            role,
            heard,
            ..
        } = pass;
        *count = self.watch(rt, place, *count, *role, *heard);
    }

    /// Makes a pass for the next caller, who has then seen as much and has this role. Only the first
    /// pass, of caller 0, is split.
    pub fn split(&self, pass: &mut Pass<S>, role: Role) -> Pass<S>
        requires own { IsPassOf self.now pass.old }
        requires first { (view pass.old).caller ≡ 0 }
        requires room { (view pass.old).made + 1 < 2 ^ 32 }
        ensures own { IsPassOf self.now pass.new × IsPassOf self.now result }
        ensures parent { view pass.new ≡ parent (view pass.old) }
        ensures child { view result ≡ child (view pass.old) }
    {
        let Pass { place, count, .. } = pass;
        Pass {
            place: self.table.shared.split_seat::<Cut>(place),
            count: *count,
            role,
            heard: 0,
            is_inside: false,
            stays: false,
            news: News::for_none(),
        }
    }

    /// Takes in what another pass knows, whose caller has then ended.
    pub fn join(&self, pass: &mut Pass<S>, other: Pass<S>)
        requires own { IsPassOf self.now pass.old × IsPassOf self.now other }
        ensures own { IsPassOf self.now pass.new }
        ensures seen { IsLonger (view pass.old).seen (view other).seen (view pass.new).seen }
        ensures legal { S.legal (view pass.new).seen }
        ensures rest { HasJoined (view pass.old) (view other) (view pass.new) }
    {
        let Pass { place, count, .. } = pass;
        let Pass {
            place: theirs,
            count: their_count,
            ..
        } = other;
        self.table.shared.join_seat::<Glue>(place, theirs);
        self.table.shared.load::<Learn<S>>(place, TICKETS);
        *count = (*count).max(their_count);
    }
}
