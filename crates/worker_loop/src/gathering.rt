//! The passes of workers, joined into the first caller's again.
ghost use Rattle.std.specs.Prelude.{◌≡◌, ◌+◌, [], ◌∷◌, ◌++◌, vec_len, false, IfSome, IfNone};
ghost use mathlib.Core.List.{IsPrefix};
ghost use Rattle.hist_lock.specs.Callers.{HasJoinedUpTo, KeepsJoined};
ghost use Rattle.hist_lock.specs.Passes.{view, IsPassOf};
ghost use Rattle.worker_loop.specs.Crew.{AreBack, AreWorkers, HasGathered, HoldNothing, IsBack, is_short};

use crate::crew::last_worker;
use crate::jobs::Work;
use crate::worker::{Shift, Worked};
use hist_lock::{Pass, Shared, State};

/// Takes what the last worker brought back.
fn last_shift<S: State, W: Work<S>>(
    lock: &Shared<S>,
    shifts: &mut Vec<Shift<S>>,
) -> Option<Shift<S>>
    requires back { AreBack W.says lock.now 1 shifts.old.items }
    ensures none { IfNone result (shifts.old.items ≡ []) }
    ensures length { IfSome result (λ s. vec_len shifts.new + 1 ≡ vec_len shifts.old) }
    ensures back { IfSome result (λ s. IsBack W.says lock.now (vec_len shifts.old) s
        × AreBack W.says lock.now 1 shifts.new.items) }
{
    shifts.pop()
}

/// Whether memory was short before, or for work that ended so.
fn is_short_after(before: bool, worked: Worked) -> bool
    ensures { result ≡ false → (before ≡ false) × (is_short worked ≡ false) }
{
    match worked {
        Worked::NoMemory => true,
        Worked::Ended | Worked::WriteFault => before,
    }
}

/// Joins the passes of the workers 1, 2 and so on into the first caller's, once they are back, and
/// tells whether one of them met want of memory: otherwise they hold nothing.
pub fn gather<S: State, W: Work<S>>(
    lock: &Shared<S>,
    first: &mut Pass<S>,
    shifts: Vec<Shift<S>>,
) -> bool
    requires own { IsPassOf lock.now first.old }
    requires back { AreBack W.says lock.now 1 shifts.items }
    ensures own { IsPassOf lock.now first.new }
    ensures seen { IsPrefix (view first.old).seen (view first.new).seen }
    ensures gathered { HasGathered (view first.old) (view first.new) }
    ensures kept { KeepsJoined (view first.old) (view first.new) }
    ensures joined { HasJoinedUpTo 0 (vec_len shifts) (view first.new) }
    ensures free { result ≡ false → HoldNothing W.says 0 (vec_len shifts) (view first.new) }
{
    let mut shifts = shifts;
    let mut is_short = false;
    'gathering: while let Some(Shift { pass, worked }) = last_shift::<S, W>(lock, &mut shifts) {
        is_short = is_short_after(is_short, worked);
        lock.join(first, pass);
    }
    is_short
}

/// Joins the passes of the workers 1, 2 and so on, which have not worked, into the first caller's.
pub fn gather_idle<S: State, W: Work<S>>(
    lock: &Shared<S>,
    first: &mut Pass<S>,
    passes: Vec<Pass<S>>,
)
    requires own { IsPassOf lock.now first.old }
    requires workers { AreWorkers W.says lock.now 1 passes.items }
    ensures own { IsPassOf lock.now first.new }
    ensures seen { IsPrefix (view first.old).seen (view first.new).seen }
    ensures gathered { HasGathered (view first.old) (view first.new) }
    ensures kept { KeepsJoined (view first.old) (view first.new) }
    ensures joined { HasJoinedUpTo 0 (vec_len passes) (view first.new) }
    ensures free { HoldNothing W.says 0 (vec_len passes) (view first.new) }
{
    let mut passes = passes;
    'gathering: while let Some(pass) = last_worker::<S, W>(lock, &mut passes) {
        lock.join(first, pass);
    }
}
