//! Looks at a session that is shared, once or until all has ended.
ghost use Rattle.std.specs.Prelude.{◌≡◌};
ghost use Rattle.hist_lock.specs.Known.{IsSameCaller};
ghost use Rattle.hist_lock.specs.Passes.{view, IsPassOf};
ghost use Rattle.worker_loop.specs.Answers.{LookedSo};
ghost use Rattle.worker_loop.specs.Rounds.{HasSeen};
ghost use Rattle.worker_loop.specs.Sending.{KnowsOwn};
ghost use Rattle.worker_loop.specs.Stays.{SeesOn};
ghost use Rattle.worker_loop.specs.declared.said.Said.TheVariants as said;
ghost use Rattle.view_laws.specs.Callers.{whose};
ghost use Rattle.view_laws.specs.Histories.{IsLegalLog};
ghost use Rattle.view_laws.specs.Says.{says};

use crate::locked::Locked;
use crate::looking::LookTurn;
use hist_lock::{Pass, Shared};
use language::Language;
use reply_outbox::Past;
use session_rules::{Entry, Service};
use std::sync::Wait;
use view_laws::reader_law;

/// Whether all has ended.
pub(crate) fn look<L: Language, P: Past<Service, Entry> + Drop, R: Wait>(
    rt: &R,
    lock: &Shared<Locked<L, P>>,
    pass: &mut Pass<Locked<L, P>>,
) -> bool
    requires own { IsPassOf lock.now pass.old }
    ensures own { IsPassOf lock.now pass.new }
    ensures same { IsSameCaller (view pass.old) (view pass.new) }
    ensures looked { LookedSo says (view pass.old) result (view pass.new) }
    ensures knows { KnowsOwn whose (view pass.new) }
    ensures legal { IsLegalLog L.lang (view pass.new).seen }
{
    reader_law::<L>();
    lock.turn(rt, pass, LookTurn)
}

/// Looks until all has ended.
pub(crate) fn look_until_ended<L: Language, P: Past<Service, Entry> + Drop, R: Wait>(
    rt: &R,
    lock: &Shared<Locked<L, P>>,
    pass: &mut Pass<Locked<L, P>>,
)
    requires own { IsPassOf lock.now pass.old }
    ensures own { IsPassOf lock.now pass.new }
    ensures same { IsSameCaller (view pass.old) (view pass.new) }
    ensures sees { SeesOn (view pass.old) (view pass.new) }
    ensures ended { HasSeen says (view pass.new) said.Ended }
    ensures knows { KnowsOwn whose (view pass.new) }
    ensures legal { IsLegalLog L.lang (view pass.new).seen }
{
    'looking: for _ in rt.forever() {
        if look(rt, lock, pass) {
            return;
        }
    }
    unreachable!()
}
