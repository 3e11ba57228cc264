//! What holds of the writer.

ghost use Rattle.std.specs.Prelude.{◌≡◌, ◌≢◌, ◌↔◌, ℕ, ◌+◌, true, List, [], ◌∷◌, ◌++◌, length, reverse};
ghost use Rattle.std.specs.List.{Contains};
ghost use mathlib.Core.List.{IsPrefix};
ghost use Rattle.hist_lock.specs.Entries.{own};
ghost use Rattle.worker_loop.specs.Sending.{AreSent};
ghost use Rattle.reply_outbox.specs.declared.item.Item.TheVariants as item;
ghost use Rattle.reply_outbox.specs.Items.{is_lost};
ghost use Rattle.session_rules.specs.Replies.{replies};
ghost use Rattle.keeping_rules.specs.Items.{SessionItem, heard_in};
ghost use Rattle.view_laws.specs.Callers.{service_of, whose, worker_count};
ghost use Rattle.view_laws.specs.Histories.{IsLegalLog};
ghost use Rattle.view_laws.specs.Idle.{Waits};
ghost use Rattle.view_laws.specs.Says.{says};
ghost use Rattle.view_laws.specs.Sent.{joined_bytes, bytes_sent};

use keeping_rules::sent_law;
use language::Language;

/// Only the writer is handed replies, and only it loses the sink. Items of others hand it nothing;
/// what it takes next is what waited longest; and what it was handed and what waits are all
/// replies.
pub fn handed_law<L: Language>()
    ensures writer { (log : List SessionItem) (who : ℕ) → IsLegalLog L.lang log
        → AreSent says (own whose who log) → own whose who log ≢ [] → who ≡ worker_count log + 1 }
    ensures lost { (log : List SessionItem) → IsLegalLog L.lang log
        → (is_lost (reverse log) ≡ true)
        ↔ Contains log (item.Lost (worker_count log + 1)) }
    ensures others { (who : ℕ) (seen log : List SessionItem) → IsLegalLog L.lang log
        → IsPrefix seen log → own whose who log ≡ own whose who seen
        → bytes_sent L.lang who log ≡ bytes_sent L.lang who seen }
    ensures next { (log : List SessionItem) (bytes : List ℕ) (waiting : List (List ℕ))
        → let who = worker_count log + 1 in IsLegalLog L.lang log
        → Waits L.lang log (bytes ∷ waiting)
        → bytes_sent L.lang who (log ++ item.Sent who (length bytes) ∷ [])
        ≡ bytes_sent L.lang who log ++ bytes }
    ensures loses { (log : List SessionItem) → let who = worker_count log + 1 in log ≢ []
        → bytes_sent L.lang who (log ++ item.Lost who ∷ []) ≡ bytes_sent L.lang who log }
    ensures all { (log : List SessionItem) (waiting : List (List ℕ)) → IsLegalLog L.lang log
        → Waits L.lang log waiting → bytes_sent L.lang (worker_count log + 1) log ++ joined_bytes waiting
        ≡ replies L.lang (service_of log) (heard_in (service_of log) (reverse log)) }
{
    sent_law::<L>();
}

/// While the writer takes nothing, what waits for it grows at its end alone.
pub fn waiting_law<L: Language>()
    ensures { (seen log : List SessionItem) (before now : List (List ℕ))
        → IsLegalLog L.lang seen → IsLegalLog L.lang log → IsPrefix seen log
        → own whose (worker_count seen + 1) log ≡ own whose (worker_count seen + 1) seen
        → Waits L.lang seen before → Waits L.lang log now
        → (more : List (List ℕ)) × (now ≡ before ++ more) }
{}
