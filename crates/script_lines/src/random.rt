//! Numbers that look random, for scripts that walk through many cases, the same ones each time.
//!
//! A linear congruence after Knuth (The Art of Computer Programming, 2, 3.3.4, his MMIX).

/// The number behind this one.
pub fn next_of(seed: u64) -> u64 {
    seed.wrapping_mul(6364136223846793005)
        .wrapping_add(1442695040888963407)
}

/// A number below the limit, by the seed; 0 where the limit is 0.
pub fn below(seed: u64, limit: usize) -> usize {
    let Ok(limit) = u64::try_from(limit) else {
        return 0;
    };
    if limit == 0 {
        return 0;
    }
    usize::try_from((seed >> 33) % limit).unwrap_or(0)
}
