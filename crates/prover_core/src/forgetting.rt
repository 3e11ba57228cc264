//! Executions that no live version assigns any more.
ghost use Rattle.std.specs.Prelude.{◌≡◌, ◌==◌, ℕ, None, if◌then◌else◌};
ghost use Rattle.text_words.specs.Members.{has};
ghost use Rattle.prover_core.specs.Looked.{looked};

use crate::table::Table;
use pide_base::ExecId;
use update_plans::Known;

/// Forgets these executions, and asks their jobs to stop.
pub(crate) fn forget_all(known: &mut Table<Known>, gone: &[ExecId])
    ensures homes { (e : ℕ) → looked known.new e
        ≡ (if has gone.now e then None else looked known.old e) }
{
    for exec in gone {
        forget_one(known, *exec);
    }
}

fn forget_one(known: &mut Table<Known>, exec: ExecId)
    ensures homes { (e : ℕ) → looked known.new e
        ≡ (if exec == e then None else looked known.old e) }
{
    if let Some(one) = known.remove(&exec.number()) {
        one.flag.set();
    }
}
