//! The passes of workers, split from the first caller's.
ghost use Rattle.std.specs.Prelude.{◌≡◌, ◌≤◌, ◌+◌, ◌<◌, ◌^◌, [], vec_len, vec_capacity};
ghost use Rattle.hist_lock.specs.Callers.{parent};
ghost use Rattle.hist_lock.specs.Passes.{view, IsPassOf};
ghost use Rattle.worker_loop.specs.Crew.{AreWorkers};

use crate::crew::put;
use crate::jobs::Work;
use hist_lock::{Pass, Role, Shared, State};

/// Splits the pass of the next worker. There is room for it.
fn split_next<S: State, W: Work<S>>(
    lock: &Shared<S>,
    first: &mut Pass<S>,
    passes: &mut Vec<Pass<S>>,
)
    requires own { IsPassOf lock.now first.old }
    requires first { (view first.old).caller ≡ 0 }
    requires made { (view first.old).made ≡ vec_len passes.old }
    requires few { vec_len passes.old + 1 < 2 ^ 32 }
    requires room { vec_len passes.old < vec_capacity passes.old }
    requires workers { AreWorkers W.says lock.now 1 passes.old.items }
    ensures own { IsPassOf lock.now first.new }
    ensures first { view first.new ≡ parent (view first.old) }
    ensures length { vec_len passes.new ≡ vec_len passes.old + 1 }
    ensures room { vec_capacity passes.old ≤ vec_capacity passes.new }
    ensures workers { AreWorkers W.says lock.now 1 passes.new.items }
{
    put(passes, lock.split(first, Role::Worker));
}

/// Splits the passes of the workers 1 to `count` from the first caller's, from which none was split
/// before. There is room for them, so it takes no memory.
pub fn split_workers<S: State, W: Work<S>>(
    lock: &Shared<S>,
    first: &mut Pass<S>,
    passes: Vec<Pass<S>>,
    count: u32,
) -> Vec<Pass<S>>
    requires own { IsPassOf lock.now first.old }
    requires first { (view first.old).caller ≡ 0 }
    requires made { (view first.old).made ≡ 0 }
    requires empty { passes.items ≡ [] }
    requires room { count ≤ vec_capacity passes }
    ensures own { IsPassOf lock.now first.new }
    ensures first { view first.new ≡ record (view first.old) { made = count } }
    ensures length { vec_len result ≡ count }
    ensures workers { AreWorkers W.says lock.now 1 result.items }
{
    let mut passes = passes;
    'splitting: for done in 0..count {
        split_next::<S, W>(lock, first, &mut passes);
    }
    passes
}
