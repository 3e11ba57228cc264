//! The writer's loop.
ghost use Rattle.std.specs.Prelude.{◌≡◌, ◌≤◌};
ghost use Rattle.hist_lock.specs.Known.{IsSameCaller};
ghost use Rattle.hist_lock.specs.Passes.{view, IsPassOf};
ghost use Rattle.worker_loop.specs.Sending.{HasOnlySent, KnowsOwn};
ghost use Rattle.worker_loop.specs.Written.{SentSo, WrittenSo};

use crate::outbox::{Next, Outbox};
use hist_lock::{Pass, Shared, State};
use pide_base::{Sink, push_whole};
use std::sync::Wait;

/// Why the writer stopped.
#[derive(Clone, Copy, Debug, PartialEq, Eq)]
pub enum Written {
    /// All has ended.
    Ended,
    /// The sink failed.
    WriteFault,
}

/// What the writer brings back.
#[derive(Drop)]
pub struct Wrote<S: State, K> {
    pub pass: Pass<S>,
    pub sink: K,
    pub written: Written,
}

// Takes what is to be sent next, and pushes it. None where the writer goes on.
fn send_next<S: State, O: Outbox<S>, K: Sink, R: Wait>(
    rt: &R,
    outbox: &O,
    lock: &Shared<S>,
    pass: &mut Pass<S>,
    who: u32,
    sink: &mut K,
) -> Option<Written>
    requires own { IsPassOf lock.now pass.old }
    requires who { (view pass.old).caller ≡ who }
    requires only_sent { HasOnlySent O.says (view pass.old) }
    requires knows { KnowsOwn S.whose (view pass.old) }
    ensures own { IsPassOf lock.now pass.new }
    ensures same { IsSameCaller (view pass.old) (view pass.new) }
    ensures sent { SentSo O.says (O.sent who)
        (view pass.old) (record { contents = K.contents sink.old; faults = K.faults sink.old })
        result
        (view pass.new) (record { contents = K.contents sink.new; faults = K.faults sink.new }) }
    ensures steady { K.faults sink.old ≤ K.faults sink.new }
    ensures knows { KnowsOwn S.whose (view pass.new) }
{
    match outbox.next(rt, lock, pass, who) {
        Next::Piece(piece) => {
            if push_whole(sink, piece.as_slice()) {
                return None;
            }
            outbox.lose(rt, lock, pass, who);
            Some(Written::WriteFault)
        }
        Next::Nothing => {
            lock.wait_change(rt, pass);
            None
        }
        Next::Ended => Some(Written::Ended),
    }
}

/// Pushes what is to be sent, piece by piece, until all has ended or the sink fails. It pushes
/// without the lock.
pub fn write_out<S: State, O: Outbox<S>, K: Sink, R: Wait>(
    rt: &R,
    outbox: &O,
    lock: &Shared<S>,
    pass: Pass<S>,
    who: u32,
    sink: K,
) -> Wrote<S, K>
    requires own { IsPassOf lock.now pass }
    requires who { (view pass).caller ≡ who }
    requires only_sent { HasOnlySent O.says (view pass) }
    requires knows { KnowsOwn S.whose (view pass) }
    ensures own { IsPassOf lock.now result.pass }
    ensures same { IsSameCaller (view pass) (view result.pass) }
    ensures knows { KnowsOwn S.whose (view result.pass) }
    ensures wrote { WrittenSo O.says (O.sent who)
        (view pass) (record { contents = K.contents sink; faults = K.faults sink })
        result.written (view result.pass)
        (record { contents = K.contents result.sink; faults = K.faults result.sink }) }
    ensures steady { K.faults sink ≤ K.faults result.sink }
{
    let mut pass = pass;
    let mut sink = sink;
    'sending: for _ in rt.forever() {
        if let Some(written) = send_next(rt, outbox, lock, &mut pass, who, &mut sink) {
            return Wrote {
                pass,
                sink,
                written,
            };
        }
    }
    unreachable!()
}
