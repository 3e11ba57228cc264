ghost use Rattle.std.specs.Prelude.{◌≡◌, find, length};
ghost use Rattle.std.specs.Option.{option_copied};
ghost use Rattle.std.specs.Ordering.{is_eq};
ghost use Rattle.shared_map.specs.Pairs.{IsSorted};
ghost use Rattle.shared_map.specs.Cuts.{before, behind};

use crate::cut::Cut;
use crate::tree::Tree;
use std::cmp::Ordering;

/// The first pair within the cut.
pub(crate) fn first_in<'a, K: Ord + Drop, V: Drop, C: Cut<K>>(
    pairs: &'a Tree<(K, V)>,
    cut: &C,
) -> Option<&'a (K, V)>
    requires { IsSorted K.cmp pairs.now }
    ensures { option_copied result ≡ find (λ pair. is_eq (C.place cut.now pair.0)) pairs.now }
{
    let parts = pairs.parts()?;
    let pair: &(K, V) = parts.item;
    match cut.place(&pair.0) {
        Ordering::Less => first_in(parts.right, cut),
        Ordering::Greater => first_in(parts.left, cut),
        Ordering::Equal => match first_in(parts.left, cut) {
            None => Some(pair),
            Some(first) => Some(first),
        },
    }
}

/// How many pairs lie before the cut.
pub(crate) fn count_before<K: Ord + Drop, V: Drop, C: Cut<K>>(
    pairs: &Tree<(K, V)>,
    cut: &C,
) -> usize
    requires { IsSorted K.cmp pairs.now }
    ensures { result ≡ length (before (C.place cut.now) pairs.now) }
{
    let Some(parts) = pairs.parts() else {
        return 0;
    };
    let pair: &(K, V) = parts.item;
    match cut.place(&pair.0) {
        Ordering::Less => pairs.len() - parts.right.len() + count_before(parts.right, cut),
        Ordering::Equal | Ordering::Greater => count_before(parts.left, cut),
    }
}

/// How many pairs lie behind the cut.
pub(crate) fn count_behind<K: Ord + Drop, V: Drop, C: Cut<K>>(
    pairs: &Tree<(K, V)>,
    cut: &C,
) -> usize
    requires { IsSorted K.cmp pairs.now }
    ensures { result ≡ length (behind (C.place cut.now) pairs.now) }
{
    let Some(parts) = pairs.parts() else {
        return 0;
    };
    let pair: &(K, V) = parts.item;
    match cut.place(&pair.0) {
        Ordering::Greater => pairs.len() - parts.left.len() + count_behind(parts.left, cut),
        Ordering::Equal | Ordering::Less => count_behind(parts.right, cut),
    }
}
