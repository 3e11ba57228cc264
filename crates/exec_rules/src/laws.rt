//! What holds of every assignment.

ghost use Rattle.std.specs.Prelude.{◌≡◌, ◌↔◌, ℕ, ◌+◌, ◌-◌, ◌<◌, ◌≤◌, true, List, length, slice_get, option_map, Some, None, IsSome, is_some};
ghost use Rattle.doc_nodes.specs.declared.node.Entry.{Entry};
ghost use Rattle.doc_nodes.specs.declared.node.Node.{Node};
ghost use Rattle.doc_nodes.specs.Wanted.{wanted_at};
ghost use Rattle.exec_rules.specs.declared.key.Key.{Key};
ghost use Rattle.exec_rules.specs.declared.row.Row.{Row};
ghost use Rattle.exec_rules.specs.Keys.{same_key};
ghost use Rattle.exec_rules.specs.Kept.{Times, KeepsAt, kept_count};
ghost use Rattle.exec_rules.specs.Rows.{live_print};
ghost use Rattle.exec_rules.specs.Worked.{AChangedCommand, APerspective, AChangedImport, BadImports, ACancellation, ABlob, AnEmptyImport};
ghost use Rattle.exec_rules.specs.Assigning.{Update, kept_of, rows_in, given, assignment};

use doc_nodes::prefix_law;

/// Keys that are told to be the same are.
pub fn key_law()
    ensures { (a b : Key) → (same_key a b ≡ true) ↔ (a ≡ b) }
{}

/// How many commands keep their evaluations: the greatest number such that each of so many at the
/// front can.
pub fn kept_law()
    ensures all { (times : Times) (now before : List Entry) (rows : List Row) (i : ℕ)
        → i < kept_count times now before rows → KeepsAt times now before rows i }
    ensures greatest { (times : Times) (now before : List Entry) (rows : List Row) (n : ℕ)
        → ((i : ℕ) → i < n → KeepsAt times now before rows i)
        → n ≤ kept_count times now before rows }
{}

/// The commands of a node that are assigned are those that keep their evaluations and all that are
/// wanted. Those that keep theirs come first; the others have the next numbers in the order of
/// their places. An assigned command has a print exactly where it is visible: the one that it had,
/// where it keeps its evaluation and the print is not cancelled.
pub fn rows_law()
    ensures keeps { (u : Update) (p : ℕ) (pair : List ℕ × Node) (key : Key) (next i : ℕ)
        → slice_get u.nodes p ≡ Some pair → i < kept_of u pair key
        → option_map (λ row. row.evaluation) (slice_get (given u p pair key next).assigned.rows i)
        ≡ option_map (λ row. row.evaluation) (slice_get (rows_in u.tip pair.0) i) }
    ensures next { (u : Update) (p : ℕ) (pair : List ℕ × Node) (key : Key) (next i : ℕ)
        → slice_get u.nodes p ≡ Some pair → kept_of u pair key ≤ i → i < wanted_at u.nodes p
        → option_map (λ row. row.evaluation) (slice_get (given u p pair key next).assigned.rows i)
        ≡ Some (next + (i - kept_of u pair key)) }
    ensures covers { (u : Update) (p : ℕ) (pair : List ℕ × Node) (key : Key) (next : ℕ)
        → slice_get u.nodes p ≡ Some pair
        → wanted_at u.nodes p ≤ length (given u p pair key next).assigned.rows }
    ensures within { (u : Update) (p : ℕ) (pair : List ℕ × Node) (key : Key) (next i : ℕ)
        → slice_get u.nodes p ≡ Some pair → wanted_at u.nodes p ≤ i → kept_of u pair key ≤ i
        → slice_get (given u p pair key next).assigned.rows i ≡ None }
    ensures kept_print { (u : Update) (p : ℕ) (pair : List ℕ × Node) (key : Key) (next i : ℕ)
        (old row : Row) (print : ℕ) → i < kept_of u pair key
        → slice_get (rows_in u.tip pair.0) i ≡ Some old
        → live_print u.cancelled old.print ≡ Some print
        → slice_get (given u p pair key next).assigned.rows i ≡ Some row
        → IsSome row.print → row.print ≡ Some print }
    ensures prints { (u : Update) (p : ℕ) (pair : List ℕ × Node) (key : Key) (next i : ℕ)
        (row : Row) → slice_get (given u p pair key next).assigned.rows i ≡ Some row
        → option_map (λ e. e.visible) (slice_get pair.1.entries i) ≡ Some (is_some row.print) }
{
    prefix_law();
}

/// An update gives as many new numbers as new executions have homes.
pub fn numbers_law()
    ensures { (u : Update) (next : ℕ)
        → (assignment u next).next ≡ next + length (assignment u next).homes }
{
    prefix_law();
}

/// What updates of small documents assign, computed.
pub fn worked_examples()
    ensures changed_command { AChangedCommand }
    ensures perspective { APerspective }
    ensures changed_import { AChangedImport }
    ensures bad_imports { BadImports }
    ensures cancellation { ACancellation }
    ensures blob { ABlob }
    ensures empty_import { AnEmptyImport }
{}
