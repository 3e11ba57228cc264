//! What the writer asks of a state in turns.
ghost use Rattle.std.specs.Prelude.{◌≡◌, ◌≢◌, ℕ, List, []};
ghost use mathlib.Core.List.{IsPrefix};
ghost use Rattle.hist_lock.specs.Entries.{own};
ghost use Rattle.hist_lock.specs.Known.{IsSameCaller};
ghost use Rattle.hist_lock.specs.Passes.{view, IsPassOf};
ghost use Rattle.worker_loop.specs.Sending.{HasOnlySent, KnowsOwn, LostSo, NextSo};
ghost use Rattle.worker_loop.specs.declared.said.Said.{Said};

use crate::said::Said;
use hist_lock::{Pass, Shared, State};
use std::sync::Wait;

/// What the writer is given.
pub enum Next {
    /// The piece that is to be pushed next.
    Piece(Vec<u8>),
    /// Nothing is to be sent before another entry comes.
    Nothing,
    Ended,
}

/// How what is to be sent is taken from a state. Each call is one turn.
pub trait Outbox<S: State> {
    /// What an entry says.
    ghost says: { S.Entry → Said };

    /// All bytes that were handed to this caller in this history, in order.
    ghost sent: { ℕ → List S.Entry → List ℕ };

    /// Takes the next piece. The caller has made entries for pieces alone. One that isn't the writer
    /// is answered nothing but that all has ended.
    fn next<R: Wait>(&self, rt: &R, lock: &Shared<S>, pass: &mut Pass<S>, who: u32) -> Next
        requires own { IsPassOf lock.now pass.old }
        requires who { (view pass.old).caller ≡ who }
        requires only_sent { HasOnlySent says (view pass.old) }
        requires knows { KnowsOwn S.whose (view pass.old) }
        ensures own { IsPassOf lock.now pass.new }
        ensures same { IsSameCaller (view pass.old) (view pass.new) }
        ensures knows { KnowsOwn S.whose (view pass.new) }
        ensures given { NextSo says (sent who) S.idle (view pass.old) result (view pass.new) };

    /// Tells that the sink failed at a piece that was handed out. It takes no memory.
    fn lose<R: Wait>(&self, rt: &R, lock: &Shared<S>, pass: &mut Pass<S>, who: u32)
        requires own { IsPassOf lock.now pass.old }
        requires who { (view pass.old).caller ≡ who }
        requires handed { (view pass.old).mine ≢ [] }
        requires only_sent { HasOnlySent says (view pass.old) }
        requires knows { KnowsOwn S.whose (view pass.old) }
        ensures own { IsPassOf lock.now pass.new }
        ensures same { IsSameCaller (view pass.old) (view pass.new) }
        ensures knows { KnowsOwn S.whose (view pass.new) }
        ensures lost { LostSo says (sent who) (view pass.old) (view pass.new) };

    /// Entries of others hand this caller nothing.
    ghost others_hand_nothing: { (who : ℕ) (seen more : List S.Entry) → S.legal more
        → IsPrefix seen more → own S.whose who more ≡ own S.whose who seen
        → sent who more ≡ sent who seen };
}
