//! How ranges stand to one another, and ranges that are moved.
ghost use Rattle.std.specs.Prelude.{◌≡◌, ◌+◌, ◌<◌, ◌^◌, ◌↔◌, IsTrue};
ghost use Rattle.report_markup.specs.Ranges.{AreTreelike, moved_range};

use pide_base::Range;

/// Whether the ranges are equal, nested or disjoint, so that a markup tree can have both.
pub fn are_treelike(range: Range, other: Range) -> bool
    ensures { IsTrue result ↔ AreTreelike range other }
{
    let apart = range.stop <= other.start || other.stop <= range.start;
    let within = other.start <= range.start && range.stop <= other.stop;
    let around = range.start <= other.start && other.stop <= range.stop;
    apart || within || around
}

/// The range, moved on by an offset in scalars: from a command's source into the text that the
/// command stands in.
pub fn moved_range(offset: usize, range: Range) -> Range
    requires start { offset + range.start < 2 ^ 64 }
    requires stop { offset + range.stop < 2 ^ 64 }
    ensures { result ≡ moved_range offset range }
{
    Range {
        start: offset + range.start,
        stop: offset + range.stop,
    }
}
