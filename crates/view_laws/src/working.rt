//! What holds of workers.

ghost use Rattle.std.specs.Prelude.{◌≡◌, ◌≢◌, ℕ, ◌≤◌, List, None};
ghost use mathlib.Core.List.{IsPrefix};
ghost use Rattle.hist_lock.specs.Entries.{own};
ghost use Rattle.worker_loop.specs.Held.{held_in};
ghost use Rattle.core_rules.specs.Standing.{held};
ghost use Rattle.keeping_rules.specs.session_replies_below.Runs.{work_done};
ghost use Rattle.keeping_rules.specs.session_replies_below.Works.{Work};
ghost use Rattle.keeping_rules.specs.Items.{SessionItem};
ghost use Rattle.view_laws.specs.Callers.{whose, worker_count};
ghost use Rattle.view_laws.specs.Histories.{IsLegalLog, session_after};
ghost use Rattle.view_laws.specs.Says.{says};
ghost use Rattle.view_laws.specs.Works.{IsRightDone, IsRightWork};

use core_rules::core_law;
use keeping_rules::unheard_law;
use language::Language;
use message_values::a_message_is_asked_where_it_is_spelled;

/// What a caller holds is told by its own items. Only the reader and workers hold parts: where none
/// of them does by its own items, nobody does.
pub fn holders_law<L: Language>()
    ensures held { (log : List SessionItem) (who : ℕ)
        → held (session_after L.lang log).events who ≡ held_in says (own whose who log) }
    ensures free { (log : List SessionItem) (who : ℕ) → IsLegalLog L.lang log
        → held_in says (own whose who log) ≢ None → who ≤ worker_count log }
    ensures nobody { (log : List SessionItem) (who : ℕ) → IsLegalLog L.lang log
        → ((w : ℕ) → w ≤ worker_count log → held_in says (own whose w log) ≡ None)
        → held (session_after L.lang log).events who ≡ None }
{
    a_message_is_asked_where_it_is_spelled();
}

/// A job that works on what its part's execution works on goes on to do so, whatever comes; and so
/// what comes of it is right.
pub fn works_law<L: Language>()
    ensures stays { (seen log : List SessionItem) (work : Work L.State) → IsPrefix seen log
        → IsLegalLog L.lang log → IsRightWork L.lang seen work → IsRightWork L.lang log work }
    ensures done { (log : List SessionItem) (work : Work L.State)
        → IsRightWork L.lang log work → IsRightDone L.lang log (work_done L.lang work) }
{
    core_law::<L>();
    unheard_law::<L>();
}
