//! What a token is to a proof term.

ghost use Rattle.std.specs.Prelude.{◌≡◌};
ghost use Rattle.proof_terms.specs.Marks.{sign};

use crate::term::Cite;
use sqlite_items::Items;

/// A token, as far as a proof term asks.
#[derive(Drop)]
pub(crate) enum Mark {
    /// `(`
    Opens,
    /// `)`
    Closes,
    /// An identifier.
    Name(Cite),
    /// Identifiers joined by dots.
    Long(Cite),
    /// The content of a string or a cartouche.
    Quoted(Items<char>),
    Other,
}

/// A parenthesis, or another scalar.
pub(crate) fn sign(scalars: &[char]) -> Mark
    ensures { result ≡ sign scalars.now }
{
    match scalars {
        ['('] => Mark::Opens,
        [')'] => Mark::Closes,
        _ => Mark::Other,
    }
}
