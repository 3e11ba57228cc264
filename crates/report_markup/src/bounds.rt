ghost use Rattle.std.specs.Prelude.{◌≡◌, ◌∷◌, ◌++◌};
ghost use Rattle.report_markup.specs.Bounds.{LieWithin, joined_bounds};

use pide_base::Range;

/// No report of some begins before `first`, and none ends behind `reach`.
#[derive(Clone, Copy, Debug)]
pub(crate) struct Bounds {
    pub(crate) first: usize,
    pub(crate) reach: usize,
}

impl Bounds {
    /// The bounds of what lies within these, or in the range.
    pub(crate) fn around(left: Bounds, range: Range, right: Bounds) -> Bounds
        ensures { result ≡ joined_bounds left range right }
    {
        Bounds {
            first: left.first.min(right.first).min(range.start),
            reach: left.reach.max(right.reach).max(range.stop),
        }
    }
}
