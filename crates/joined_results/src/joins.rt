//! The joins of two and of three results.
ghost use Rattle.std.specs.Prelude.{◌≡◌, IfOk};

use std::alloc::AllocError;

/// What both calls made, or want of memory where either had it.
pub fn both<A: Drop, B: Drop>(
    one: Result<A, AllocError>,
    other: Result<B, AllocError>,
) -> Result<(A, B), AllocError>
    ensures first { IfOk result (λ made. one ≡ Ok made.0) }
    ensures second { IfOk result (λ made. other ≡ Ok made.1) }
{
    let one = one?;
    Ok((one, other?))
}

/// What the three calls made, or want of memory where any of them had it.
pub fn each_of_three<A: Drop, B: Drop, C: Drop>(
    one: Result<A, AllocError>,
    other: Result<B, AllocError>,
    third: Result<C, AllocError>,
) -> Result<(A, B, C), AllocError>
    ensures first { IfOk result (λ made. one ≡ Ok made.0) }
    ensures second { IfOk result (λ made. other ≡ Ok made.1) }
    ensures third { IfOk result (λ made. third ≡ Ok made.2) }
{
    let (one, other) = both(one, other)?;
    Ok((one, other, third?))
}
