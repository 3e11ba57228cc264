//! What holds of every document.

ghost use Rattle.std.specs.Prelude.{◌≡◌, ◌↔◌, ℕ, ◌<◌, ◌≤◌, true, false, List, ◌∷◌, length, slice_get, Some, None};
ghost use Rattle.text_words.specs.Members.{has};
ghost use Rattle.pide_base.specs.declared.part.Part.{Part};
ghost use Rattle.doc_nodes.specs.declared.node.Node.{Node};
ghost use Rattle.doc_nodes.specs.Wanted.{wanted_at};
ghost use Rattle.core_tables.specs.declared.versions.Live.{Live};
ghost use Rattle.exec_rules.specs.declared.row.Row.{Row};
ghost use Rattle.exec_rules.specs.declared.version.Version.{Version};
ghost use Rattle.exec_rules.specs.Assigning.{rows_in};
ghost use Rattle.exec_rules.specs.Listed.{executions};
ghost use Rattle.core_rules.specs.declared.event.Event.{Event};
ghost use Rattle.core_rules.specs.declared.event.Event.TheVariants.{Update};
ghost use Rattle.core_rules.specs.Assigned.{assigns, is_assigned};
ghost use Rattle.core_rules.specs.Settings.{Setting, setting};
ghost use Rattle.core_rules.specs.Standing.{standing, Free, Held, held, is_unclaimed, is_open, has_ended};
ghost use Rattle.core_rules.specs.Doc.{doc};
ghost use Rattle.core_rules.specs.Ready.{is_wanted, has_inputs, is_ready, IsFirst, all_parts, first_ready};
ghost use Rattle.core_rules.specs.Stuck.{is_settled};
ghost use Rattle.core_rules.specs.Alone.{alone, IsAlone};
ghost use Rattle.core_rules.specs.FromScratch.{assigned_to, AllFromScratch};
ghost use Rattle.core_rules.specs.Legal.{IsLegal};
ghost use Rattle.core_rules.specs.Sources.{HasHome};
ghost use Rattle.core_rules.specs.Placed.{RowOf};
ghost use Rattle.core_rules.specs.Shown.{parts_shown, scratch_shown};

use doc_nodes::{aliases_law, order_law, prefix_law, wanted_law};
use exec_rules::key_law;
use language::Language;

/// After each legal list of events, whatever the order in which parts were taken and finished, all
/// that a live version assigns comes to what it comes to from nothing: each execution goes by what
/// the version has at its place, and works on the state in which its command is run when the
/// version is checked from its first node to its last. So what is shown of a node is what that
/// check gives, at the parts that are finished. What an execution works on never changes.
pub fn core_law<L: Language>()
    ensures each { (h : List Event) (k : ℕ) (one : Live Version) → IsLegal L.lang h
        → slice_get (doc L.lang h).live k ≡ Some one
        → AllFromScratch L.lang (doc L.lang h) one.version }
    ensures shown { (h : List Event) (k : ℕ) (one : Live Version) (name : List ℕ) → IsLegal L.lang h
        → slice_get (doc L.lang h).live k ≡ Some one
        → parts_shown L.lang h (doc L.lang h) one.version name
        ≡ scratch_shown L.lang h one.version name }
    ensures stays { (x : Event) (h : List Event) (e : ℕ) (s : Setting L.State)
        → setting L.lang (doc L.lang h).homes e ≡ Some s
        → setting L.lang (doc L.lang (x ∷ h)).homes e ≡ Some s }
{
    order_law();
    prefix_law();
    wanted_law();
    aliases_law();
    key_law();
}

/// Each command that the nodes of an update want has an evaluation in the version that it makes.
pub fn covers_law<L: Language>()
    ensures { (h : List Event) (id : ℕ) (nodes : List (List ℕ × Node))
        (blobs : List (List ℕ × List ℕ)) (p : ℕ) (pair : List ℕ × Node)
        → IsLegal L.lang (Update id nodes blobs ∷ h) → slice_get nodes p ≡ Some pair
        → wanted_at nodes p
        ≤ length (assigned_to (doc L.lang (Update id nodes blobs ∷ h)).tip p).rows }
{
    order_law();
    prefix_law();
    wanted_law();
    aliases_law();
    key_law();
}

/// Who holds a part is told by the newest event that names it, and what a worker holds by its own
/// newest: so a part has one holder at most.
pub fn holders_law<L: Language>()
    ensures told { (h : List Event) (who : ℕ) (p : Part) → IsLegal L.lang h
        → (held h who ≡ Some p) ↔ (standing h p ≡ Held who) }
    ensures one { (h : List Event) (v w : ℕ) (p : Part) → IsLegal L.lang h
        → held h v ≡ Some p → held h w ≡ Some p → v ≡ w }
{}

/// Where parts are ready, one of them is the first.
pub fn first_law<L: Language>()
    ensures first { (h : List Event) (p : Part)
        → (first_ready L.lang h ≡ Some p) ↔ IsFirst L.lang h p }
    ensures none { (h : List Event)
        → (first_ready L.lang h ≡ None) ↔ ((p : Part) → is_ready L.lang h p ≡ false) }
{}

/// A version assigns nothing that was cancelled before it was made, and what is cancelled stays so.
pub fn cancelled_law<L: Language>()
    ensures not_again { (h : List Event) (id : ℕ) (nodes : List (List ℕ × Node))
        (blobs : List (List ℕ × List ℕ)) (e : ℕ) → has (doc L.lang h).cancelled e ≡ true
        → assigns (doc L.lang (Update id nodes blobs ∷ h)).tip e ≡ false }
    ensures stays { (x : Event) (h : List Event) (e : ℕ) → has (doc L.lang h).cancelled e ≡ true
        → has (doc L.lang (x ∷ h)).cancelled e ≡ true }
{}

/// All that can still be worked on is in the tip.
pub fn tip_law<L: Language>()
    ensures { (h : List Event) (e : ℕ) → IsLegal L.lang h → is_wanted (doc L.lang h) e ≡ true
        → is_open L.lang h (doc L.lang h).homes e ≡ true → assigns (doc L.lang h).tip e ≡ true }
{
    order_law();
    prefix_law();
    wanted_law();
    aliases_law();
    key_law();
}

/// Where nothing is ready and nothing held, each live version is settled.
pub fn rest_law<L: Language>()
    ensures { (h : List Event) (k : ℕ) (one : Live Version) → IsLegal L.lang h
        → first_ready L.lang h ≡ None → ((who : ℕ) → held h who ≡ None)
        → slice_get (doc L.lang h).live k ≡ Some one
        → is_settled L.lang h (doc L.lang h) one.version ≡ true }
{
    order_law();
    prefix_law();
    wanted_law();
    aliases_law();
    key_law();
}

/// A worker that holds nothing can always take the first ready part and finish it. One that goes on
/// so comes to rest, and has only one way.
pub fn alone_law<L: Language>()
    ensures legal { (h : List Event) (who n : ℕ) → IsLegal L.lang h → held h who ≡ None
        → has_ended h ≡ false → IsLegal L.lang (alone L.lang who n h) }
    ensures rests { (h : List Event) (who : ℕ)
        → let n = length (all_parts L.lang (doc L.lang h).homes) in
        first_ready L.lang (alone L.lang who n h) ≡ None }
    ensures one_way { (h k : List Event) (who n : ℕ) → IsLegal L.lang k → IsAlone who h n k
        → k ≡ alone L.lang who n h }
{}

/// An execution that a live version assigns goes by something and works on something. What it takes
/// up are older evaluations, which the version assigns as well; and a node that has no commands,
/// and hands on how it begins, is one of the version's. Nobody works on what was not made. A
/// part that somebody holds, or has finished, waits for nothing.
pub fn homes_law<L: Language>()
    ensures live { (h : List Event) (k : ℕ) (one : Live Version) (e : ℕ) → IsLegal L.lang h
        → slice_get (doc L.lang h).live k ≡ Some one → assigns one.version e ≡ true
        → HasHome L.lang (doc L.lang h) one.version e }
    ensures tip { (h : List Event) (e : ℕ) → IsLegal L.lang h
        → assigns (doc L.lang h).tip e ≡ true
        → HasHome L.lang (doc L.lang h) (doc L.lang h).tip e }
    ensures made { (h : List Event) (e : ℕ) → IsLegal L.lang h
        → is_assigned (doc L.lang h).live e ≡ true → e ≤ length (doc L.lang h).homes }
    ensures unmade { (h : List Event) (p : Part) → IsLegal L.lang h
        → length (doc L.lang h).homes < p.exec → standing h p ≡ Free }
    ensures begun { (h : List Event) (p : Part) → IsLegal L.lang h
        → is_unclaimed (standing h p) ≡ false
        → has_inputs h (doc L.lang h).homes p ≡ true }
{
    order_law();
    prefix_law();
    wanted_law();
    aliases_law();
    key_law();
}

/// An execution that the tip assigns stands in one row of one node, and what stands in a row of a
/// version is assigned.
pub fn places_law<L: Language>()
    ensures found { (h : List Event) (e : ℕ) → IsLegal L.lang h
        → assigns (doc L.lang h).tip e ≡ true → RowOf (doc L.lang h).tip e }
    ensures there { (v : Version) (name : List ℕ) (i e : ℕ) (row : Row)
        → slice_get (rows_in v name) i ≡ Some row → has (executions row) e ≡ true
        → assigns v e ≡ true }
    ensures once { (h : List Event) (name other : List ℕ) (i j e : ℕ) (r s : Row)
        → IsLegal L.lang h → slice_get (rows_in (doc L.lang h).tip name) i ≡ Some r
        → slice_get (rows_in (doc L.lang h).tip other) j ≡ Some s
        → has (executions r) e ≡ true → has (executions s) e ≡ true
        → (name ≡ other) × (i ≡ j) }
{
    order_law();
    prefix_law();
    wanted_law();
    aliases_law();
    key_law();
}
