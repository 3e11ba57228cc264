//! Which commands of a text are seen.
ghost use Rattle.std.specs.Prelude.{◌≡◌, filter, nat_lt, IfOk};
ghost use Rattle.buffer_rules.specs.Cuts.{is_seen};
ghost use Rattle.editor_buffer.specs.Spread.{AreSpread, spread, ShowAlike};

use pide_base::Range;
use std::alloc::{AllocError, Global};
use std::marker::Model;

/// What is seen of a text, as ranges of it that are searched: none is empty, and each begins and
/// ends no earlier than those before it.
#[derive(Drop)]
pub(crate) struct Seen {
    ranges: Vec<Range>,
}

impl Model for Seen {
    ghost use Rattle.std.specs.Prelude.{List};
    ghost use Rattle.pide_base.specs.declared.range.Range.{Range};
    ghost use Rattle.editor_buffer.specs.Spread.{AreSpread};

    ghost Value = { List Range };

    ghost view = { λ seen. seen.ranges.items };

    ghost invariant = { λ seen. AreSpread seen.ranges.items };
}

/// Those of the ranges that are not empty.
fn filled(alloc: Global, ranges: &[Range]) -> Result<Vec<Range>, AllocError>
    ensures { IfOk result (λ kept. kept.items ≡ filter (λ r. nat_lt r.start r.stop) ranges.now) }
{
    let mut kept = Vec::new(alloc);
    let mut rest = ranges;
    'each: while let [range, more @ ..] = rest {
        if range.start < range.stop {
            kept.push(*range)?;
        }
        rest = more;
    }
    Ok(kept)
}

/// The ranges, each made to end as far as those before it.
fn reaching(alloc: Global, ranges: &[Range]) -> Result<Vec<Range>, AllocError>
    ensures { IfOk result (λ all. all.items ≡ spread 0 ranges.now) }
{
    let mut all = Vec::with_capacity(alloc, ranges.len())?;
    let mut reach = 0;
    let mut rest = ranges;
    'each: while let [range, more @ ..] = rest {
        reach = reach.max(range.stop);
        all.push(Range {
            start: range.start,
            stop: reach,
        })?;
        rest = more;
    }
    Ok(all)
}

impl Seen {
    /// What is seen under these ranges, in whatever order they come.
    pub(crate) fn of(alloc: Global, ranges: &[Range]) -> Result<Seen, AllocError>
        ensures { IfOk result (λ seen. ShowAlike seen ranges.now) }
    {
        let mut sorted = filled(alloc, ranges)?;
        sorted.sort_unstable_by_key(|range| range.start);
        let ranges = reaching(alloc, &sorted)?;
        Ok(Seen { ranges })
    }

    /// Whether something of the range is seen. It takes logarithmic time.
    pub(crate) fn shows(&self, range: Range) -> bool
        ensures { result ≡ is_seen self.now range }
    {
        let count = self.ranges.partition_point(|one| one.start < range.stop);
        if count == 0 {
            return false;
        }
        let last = self.ranges[count - 1];
        range.start < range.stop && range.start < last.stop
    }
}
