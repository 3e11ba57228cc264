//! The limits of a document.
ghost use Rattle.std.specs.Prelude.{◌≡◌, nat_lt};
ghost use Rattle.pide_base.specs.Limits.{most_nodes, most_scalars, most_live};

const MOST_NODES: usize = 65_536;

const MOST_SCALARS: usize = 16_777_216;

const MOST_LIVE: usize = 64;

/// Whether a version cannot have so many nodes, or so many blobs.
pub fn are_too_many(count: usize) -> bool
    ensures { result ≡ nat_lt most_nodes count }
{
    MOST_NODES < count
}

/// Whether a text cannot have so many scalars.
pub fn is_too_long(scalars: usize) -> bool
    ensures { result ≡ nat_lt most_scalars scalars }
{
    MOST_SCALARS < scalars
}

/// Whether so many versions cannot be live at once.
pub fn are_too_many_live(versions: usize) -> bool
    ensures { result ≡ nat_lt most_live versions }
{
    MOST_LIVE < versions
}
