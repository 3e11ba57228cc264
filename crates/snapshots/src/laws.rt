//! Laws over the definitions, as contracts of functions that do nothing.
ghost use Rattle.std.specs.Prelude.{List};
ghost use Rattle.text_edits.specs.declared.edit.Edit.{Edit};
ghost use Rattle.report_markup.specs.Ranges.{IsTreelike};
ghost use Rattle.snapshots.specs.declared.part.AssignedPart.{AssignedPart};
ghost use Rattle.snapshots.specs.Gathered.{snapshot_reports};
ghost use Rattle.snapshots.specs.Nested.{AreNested};

use text_edits::places_stay_in_order;

/// Where reports lie in their commands, and agree there, any two that a snapshot shows are equal in
/// range, nested or disjoint, whatever the edits: a markup tree can have them all.
pub fn shown_stays_treelike()
    ensures { (edits : List Edit) (parts : List AssignedPart) → AreNested parts
        → IsTreelike (snapshot_reports edits parts) }
{
    places_stay_in_order();
}
