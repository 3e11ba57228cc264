//! Names compared, as lists of numbers.
ghost use Rattle.std.specs.Prelude.{◌≡◌};
ghost use Rattle.doc_nodes.specs.Names.{in_order};

use std::cmp::Ordering;

/// A name in bytes before, at or behind one in scalars, in the order of their numbers.
pub(crate) fn compared(bytes: &[u8], scalars: &[char]) -> Ordering
    ensures { result ≡ in_order bytes.now scalars.now }
{
    let mut front = bytes;
    let mut back = scalars;
    'same: while let [byte, more @ ..] = front {
        let [scalar, rest @ ..] = back else {
            return Ordering::Greater;
        };
        match (*byte as u32).cmp(&(*scalar as u32)) {
            Ordering::Equal => {
                front = more;
                back = rest;
            }
            unequal => return unequal,
        }
    }
    if back.is_empty() {
        Ordering::Equal
    } else {
        Ordering::Less
    }
}
