//! What workers hold, by their numbers.
ghost use Rattle.std.specs.Prelude.{◌≡◌, ◌==◌, ℕ, None, Some, OnOk, OnErr, if◌then◌else◌};
ghost use Rattle.prover_core.specs.Looked.{looked};

use std::alloc::{AllocError, Global};
use std::collections::HashMap;
use std::hash::{BuildHasherDefault, FoldHasher};

/// Things by the numbers of workers.
pub(crate) type Table<T> = HashMap<u64, T, BuildHasherDefault<FoldHasher>, Global>;

/// Puts a thing in.
pub(crate) fn put<T: Drop>(table: &mut Table<T>, who: u32, thing: T) -> Result<(), AllocError>
    ensures ok { OnOk result ((w : ℕ) → looked table.new w
        ≡ (if who == w then Some thing else looked table.old w)) }
    ensures err { OnErr result ((w : ℕ) → looked table.new w ≡ looked table.old w) }
{
    match table.insert(u64::from(who), thing) {
        Ok(_) => Ok(()),
        Err(_) => Err(AllocError),
    }
}

/// Takes a thing out.
pub(crate) fn take_out<T: Drop>(table: &mut Table<T>, who: u32) -> Option<T>
    ensures value { result ≡ looked table.old who }
    ensures others { (w : ℕ) → looked table.new w
        ≡ (if who == w then None else looked table.old w) }
{
    table.remove(&u64::from(who))
}
