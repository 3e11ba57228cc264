//! What holds of every assignment, beside the rules.
ghost use Rattle.std.specs.Prelude.{◌≡◌, ℕ, Bool, List};
ghost use Rattle.doc_nodes.specs.Imports.{NodeList};
ghost use Rattle.exec_rules.specs.declared.version.Version.{Version};
ghost use Rattle.exec_rules.specs.Kept.{BlobList};
ghost use Rattle.exec_rules.specs.Assigning.{Update, assignment};
ghost use Rattle.exec_assign.specs.Agreeing.{AgreeAt};
ghost use Rattle.exec_assign.specs.Numbered.{new_in, with_numbers, AreBelow, AreHeld};
ghost use Rattle.exec_assign.specs.Telling.{update_version};
ghost use Rattle.exec_assign.specs.Untouched.{AreUntouched};

use doc_nodes::order_law;
use exec_rules::kept_law;

/// An assignment depends on what is cancelled only of the executions that the version before
/// assigns; so does which nodes are untouched.
pub fn cancelled_law()
    ensures assignment { (tip : Version) (nodes : NodeList) (blobs : BlobList)
        (one other : List ℕ) (next : ℕ) → AgreeAt tip one other
        → assignment (record { tip = tip; nodes = nodes; blobs = blobs; cancelled = one }) next
        ≡ assignment (record { tip = tip; nodes = nodes; blobs = blobs; cancelled = other }) next }
    ensures untouched { (tip : Version) (nodes : NodeList) (blobs : BlobList)
        (one other : List ℕ) (marks : List Bool) → AgreeAt tip one other
        → AreUntouched (record {
          tip = tip;
          nodes = nodes;
          blobs = blobs;
          cancelled = one;
        }) marks → AreUntouched (record {
          tip = tip;
          nodes = nodes;
          blobs = blobs;
          cancelled = other;
        }) marks }
{}

/// The new executions have the next numbers, one after the other: node by node in the order of
/// imports, in a node its evaluations in the order of places, then its prints. The homes are
/// theirs, in this order. Executions with lower numbers stand where the version before has them. So
/// none is given twice.
pub fn new_numbers_law()
    ensures new { (u : Update) (first : ℕ) → AreBelow first u.tip
        → new_in u first (assignment u first).assigned
        ≡ with_numbers first (assignment u first).homes }
    ensures held { (u : Update) (first : ℕ)
        → AreHeld first u.tip (update_version u (assignment u first).assigned) }
    ensures below { (u : Update) (first : ℕ) → AreBelow first u.tip
        → AreBelow (assignment u first).next (update_version u (assignment u first).assigned) }
{
    kept_law();
    order_law();
}
