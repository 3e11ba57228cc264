//! Sources of commands. A contract sees one as its scalars.
ghost use Rattle.std.specs.Prelude.{◌≡◌, map, IfOk};
ghost use Rattle.doc_nodes.specs.Names.{equal};
ghost use Rattle.buffer_rules.specs.Cuts.{source};

use outer_syntax::scalars;
use pide_base::Range;
use std::alloc::{AllocError, Global};
use std::cmp::Ordering;
use std::marker::Model;

/// The source of a command, lent by the text that it stands in.
#[derive(Drop)]
pub struct Source<'a> {
    scalars: &'a [char],
}

impl<'a> Model for Source<'a> {
    ghost use Rattle.std.specs.Prelude.{ℕ, List};

    ghost Value = { List ℕ };

    ghost view = { λ source. source.scalars.now };
}

impl<'a> Source<'a> {
    /// The source of these scalars.
    pub fn of(scalars: &'a [char]) -> Source<'a>
        ensures { result ≡ scalars.now }
    {
        Source { scalars }
    }

    /// Its scalars.
    pub fn as_slice(&self) -> &[char]
        ensures { result.now ≡ self.now }
    {
        self.scalars
    }

    /// Whether both have the same scalars.
    pub(crate) fn equals(&self, other: &Source<'a>) -> bool
        ensures { result ≡ equal self.now other.now }
    {
        match self.scalars.cmp(other.scalars) {
            Ordering::Equal => true,
            Ordering::Less | Ordering::Greater => false,
        }
    }
}

/// The sources of these ranges of a text.
pub fn sources<'a>(
    alloc: Global,
    text: &'a [char],
    ranges: &[Range],
) -> Result<Vec<Source<'a>>, AllocError>
    ensures { IfOk result (λ all. all.items ≡ map (source text.now) ranges.now) }
{
    let mut all = Vec::with_capacity(alloc, ranges.len())?;
    let mut rest = ranges;
    'each: while let [range, more @ ..] = rest {
        all.push(Source::of(scalars(text, *range)))?;
        rest = more;
    }
    Ok(all)
}
