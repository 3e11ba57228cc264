//! What holds of lists of items, the oldest first.

ghost use Rattle.std.specs.Prelude.{◌≡◌, ◌≢◌, ◌==◌, ◌↔◌, ℕ, true, List, [], reverse, filter};
ghost use Rattle.std.specs.List.{Contains};
ghost use mathlib.Core.List.{IsPrefix};
ghost use Rattle.hist_lock.specs.Entries.{own};
ghost use Rattle.core_rules.specs.Standing.{has_ended};
ghost use Rattle.reply_outbox.specs.declared.item.Item.TheVariants as item;
ghost use Rattle.session_rules.specs.declared.entry.Entry.TheVariants as entry;
ghost use Rattle.session_rules.specs.declared.service.Service.TheVariants.{Workers};
ghost use Rattle.session_rules.specs.Steps.{Nothing, due};
ghost use Rattle.session_rules.specs.Runs.{called};
ghost use Rattle.keeping_rules.specs.Items.{SessionItem, heard_in};
ghost use Rattle.keeping_rules.specs.Legal.{AreLegal};
ghost use Rattle.view_laws.specs.Callers.{maker, whose, worker_count};
ghost use Rattle.view_laws.specs.Histories.{IsLegalLog, history, session_after};
ghost use Rattle.view_laws.specs.Worked.{ARefusal, TwoWorkers};

use language::Language;
use message_values::a_message_is_asked_where_it_is_spelled;

/// The legal list of a session that so many workers serve tells how many they are, and so does each
/// beginning of it, which is legal as well. No message calls for a step.
pub fn list_law<L: Language>()
    ensures workers { (count : ℕ) (items : List SessionItem)
        → AreLegal L.lang (Workers count) items → worker_count (reverse items) ≡ count }
    ensures legal { (count : ℕ) (items : List SessionItem)
        → AreLegal L.lang (Workers count) items → IsLegalLog L.lang (reverse items) }
    ensures same { (seen log : List SessionItem) → seen ≢ [] → IsPrefix seen log
        → worker_count log ≡ worker_count seen }
    ensures begins { (seen log : List SessionItem) → seen ≢ [] → IsPrefix seen log
        → IsLegalLog L.lang log → IsLegalLog L.lang seen }
    ensures nothing_due { (count : ℕ) (items : List SessionItem)
        → due L.lang (Workers count) (heard_in (Workers count) items) ≡ Nothing }
{
    a_message_is_asked_where_it_is_spelled();
}

/// Each item is its caller's own, and of the history each caller has just the entries that it made.
pub fn owners_law()
    ensures own { (log : List SessionItem) (one : SessionItem)
        → Contains log one ↔ Contains (own whose (whose one) log) one }
    ensures entries { (log : List SessionItem) (who : ℕ) → history (own whose who log)
        ≡ filter (λ entry. maker entry == who) (history log) }
{}

/// The calls and the end are the reader's.
pub fn reader_law<L: Language>()
    ensures calls { (log : List SessionItem)
        → called (history (own whose 0 log)) ≡ called (history log) }
    ensures ended { (log : List SessionItem)
        → (has_ended (session_after L.lang log).events ≡ true)
        ↔ Contains log (item.Made entry.Ended) }
{}

/// What small lists tell, computed.
pub fn worked_examples()
    ensures refusal { ARefusal }
    ensures workers { TwoWorkers }
{}
