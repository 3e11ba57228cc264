//! What workers hold, by their numbers, in room that is made before.
ghost use Rattle.std.specs.Prelude.{◌≡◌, ◌==◌, ◌<◌, ◌≤◌, ℕ, None, Some, OnOk, if◌then◌else◌};
ghost use Rattle.std.specs.HashMap.{spare};
ghost use Rattle.prover_core.specs.Looked.{looked};

use std::alloc::{AllocError, Global};
use std::collections::HashMap;
use std::hash::{BuildHasherDefault, FoldHasher};

/// Things by the numbers of workers.
pub(crate) type Table<T> = HashMap<u64, T, BuildHasherDefault<FoldHasher>, Global>;

/// Makes room for one more.
pub(crate) fn reserve_one<T: Drop>(table: &mut Table<T>) -> Result<(), AllocError>
    ensures things { (w : ℕ) → looked table.new w ≡ looked table.old w }
    ensures ok { OnOk result (0 < spare table.new) }
{
    table.reserve(1)
}

/// Puts what a worker holds in, who holds nothing, in room that was made.
pub(crate) fn put<T: Drop>(table: &mut Table<T>, who: u32, thing: T)
    requires new { looked table.old who ≡ None }
    requires room { 0 < spare table.old }
    ensures things { (w : ℕ) → looked table.new w
        ≡ (if who == w then Some thing else looked table.old w) }
{
    match table.insert(u64::from(who), thing) {
        Ok(_) => {}
        Err(_) => unreachable!(),
    }
}

/// Takes what a worker holds out.
pub(crate) fn take_out<T: Drop>(table: &mut Table<T>, who: u32) -> Option<T>
    ensures value { result ≡ looked table.old who }
    ensures others { (w : ℕ) → looked table.new w
        ≡ (if who == w then None else looked table.old w) }
    ensures room { spare table.old ≤ spare table.new }
{
    table.remove(&u64::from(who))
}
