//! Tables by number, in room that is made before.
ghost use Rattle.std.specs.Prelude.{◌≡◌, ◌==◌, ℕ, ◌+◌, ◌-◌, ◌<◌, ◌≤◌, None, Some, OnOk, is_some, if◌then◌else◌};
ghost use Rattle.std.specs.Option.{option_copied};
ghost use Rattle.std.specs.HashMap.{hash_map_len, spare};
ghost use Rattle.prover_core.specs.Looked.{looked};

use std::alloc::{AllocError, Global};
use std::collections::HashMap;
use std::hash::{BuildHasherDefault, FoldHasher};

/// Things by their numbers.
pub(crate) type Table<T> = HashMap<u64, T, BuildHasherDefault<FoldHasher>, Global>;

/// Makes room for one more.
pub(crate) fn reserve_one<T: Drop>(table: &mut Table<T>) -> Result<(), AllocError>
    ensures things { (e : ℕ) → looked table.new e ≡ looked table.old e }
    ensures len { hash_map_len table.new ≡ hash_map_len table.old }
    ensures ok { OnOk result (0 < spare table.new) }
{
    table.reserve(1)
}

/// Puts what a worker holds in, who holds nothing, in room that was made.
pub(crate) fn put<T: Drop>(table: &mut Table<T>, who: u32, thing: T)
    requires new { looked table.old who ≡ None }
    requires room { 0 < spare table.old }
    ensures things { (e : ℕ) → looked table.new e
        ≡ (if who == e then Some thing else looked table.old e) }
    ensures len { hash_map_len table.new ≡ hash_map_len table.old + 1 }
{
    match table.insert(u64::from(who), thing) {
        Ok(_) => {}
        Err(_) => unreachable!(),
    }
}

/// Takes what a worker holds out.
pub(crate) fn take_out<T: Drop>(table: &mut Table<T>, who: u32)
    ensures things { (e : ℕ) → looked table.new e
        ≡ (if who == e then None else looked table.old e) }
    ensures len { hash_map_len table.new + (if is_some (looked table.old who) then 1 else 0)
        ≡ hash_map_len table.old }
{
    table.remove(&u64::from(who));
}
