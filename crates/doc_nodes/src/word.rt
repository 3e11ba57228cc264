//! Names that are lent, in the order of their scalars.
ghost use Rattle.std.specs.Prelude.{◌≡◌, Some, refl, nat_eq};
ghost use Rattle.std.specs.Ordering.{nat_cmp};
ghost use Rattle.std.specs.Cmp.{partial_equiv_from_equiv};
ghost use Rattle.std.specs.Cmp.Lexicographic.{pointwise, slice_cmp, nat_list_eq_equiv, nat_list_cmp_total, texts_ties, texts_po};

use std::cmp::Ordering;
use std::marker::Model;

/// A name, lent.
#[derive(Drop)]
pub(crate) struct Word<'a> {
    scalars: &'a [char],
}

impl<'a> Model for Word<'a> {
    ghost use Rattle.std.specs.Prelude.{ℕ, List};

    ghost Value = { List ℕ };

    ghost view = { λ word. word.scalars.now };
}

impl<'a> Word<'a> {
    pub(crate) fn of(scalars: &'a [char]) -> Word<'a>
        ensures { result ≡ scalars.now }
    {
        Word { scalars }
    }

    pub(crate) fn as_slice(&self) -> &[char]
        ensures { result.now ≡ self.now }
    {
        self.scalars
    }
}

impl<'a> PartialEq for Word<'a> {
    ghost eq = { pointwise nat_eq };

    ghost laws = { partial_equiv_from_equiv nat_list_eq_equiv };

    fn eq(&self, other: &Word<'a>) -> bool {
        self.scalars == other.scalars
    }
}

impl<'a> Eq for Word<'a> {
    ghost laws = { nat_list_eq_equiv };
}

impl<'a> PartialOrd for Word<'a> {
    ghost partial_cmp = { λ a b. Some (slice_cmp nat_cmp a b) };

    ghost laws = { texts_po };

    fn partial_cmp(&self, other: &Word<'a>) -> Option<Ordering> {
        Some(self.cmp(other))
    }
}

impl<'a> Ord for Word<'a> {
    ghost cmp = { slice_cmp nat_cmp };

    ghost total = { nat_list_cmp_total };

    ghost matches_partial_cmp = { λ a b. refl };

    ghost matches_eq = { texts_ties };

    fn cmp(&self, other: &Word<'a>) -> Ordering {
        self.scalars.cmp(other.scalars)
    }
}
