ghost use Rattle.std.specs.Prelude.{◌≡◌};
ghost use Rattle.std.specs.declared.cmp.Ordering.{Ordering};
ghost use Rattle.shared_map.specs.Cuts.{IsCut, at_key};

use std::cmp::Ordering;

/// A run of keys, as all keys that begin with a name: each key lies before it, within it or behind
/// it.
pub trait Cut<K: Ord> {
    /// Where a key lies: `Less` before the cut, `Equal` within it, `Greater` behind it.
    ghost place: { Self → K → Ordering };

    fn place(&self, key: &K) -> Ordering
        ensures { result ≡ place self.now key.now };

    /// A greater key lies no earlier.
    ghost rises: { (cut : Self) → IsCut K.cmp (place cut) };
}

/// The cut of one key.
#[derive(Drop)]
pub struct Exactly<'a, K>(pub &'a K);

impl<'a, K: Ord> Cut<K> for Exactly<'a, K> {
    ghost use Rattle.shared_map.specs.Cuts.{at_key};
    ghost use Rattle.shared_map.specs.KeyCut.{is_cut-at_key};

    ghost place = { λ cut. at_key K.cmp cut.0.now };

    ghost rises = { λ cut. is_cut-at_key K.Ord.total cut.0.now };

    fn place(&self, key: &K) -> Ordering {
        key.cmp(self.0)
    }
}
