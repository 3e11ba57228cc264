//! What is told, node by node.
ghost use Rattle.std.specs.Prelude.{◌≡◌, ◌<◌, None, length, slice_index_or, IfOk};
ghost use Rattle.std.specs.List.{All, filter_map};
ghost use Rattle.pide_build.specs.Standing.{AreOnce};

use std::alloc::{AllocError, Global};
use std::mem;

/// What is told of the nodes at these places, in this order, where something is.
pub(crate) fn gathered<M: Drop>(
    alloc: Global,
    places: &[usize],
    told: Vec<Option<M>>,
) -> Result<Vec<M>, AllocError>
    requires within { All (λ p. p < length told.items) places.now }
    requires once { AreOnce places.now }
    ensures { IfOk result (λ all. all.items
        ≡ filter_map (λ p. slice_index_or told.items p None) places.now) }
{
    let mut told = told;
    let mut all = Vec::with_capacity(alloc, places.len())?;
    let mut rest = places;
    'places: while let [place, more @ ..] = rest {
        if let Some(one) = mem::replace(&mut told[*place], None) {
            all.push(one)?;
        }
        rest = more;
    }
    Ok(all)
}
