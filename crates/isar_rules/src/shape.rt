//! What a command says, read off its tokens.

use pide_base::Range;
use sqlite_items::Items;

/// A name, or the content of a quoted text, in scalars, and where it stands in the command's
/// source.
#[derive(Debug, Drop)]
pub struct Spot {
    pub text: Items<char>,
    pub range: Range,
}

/// A command of the shape that its word asks for.
#[derive(Debug, Drop)]
pub enum Shape {
    /// The theory's name, and its imports as they are listed.
    Theory { name: Spot, imports: Items<Spot> },
    End,
    Axiom { name: Spot, formula: Spot },
    Lemma { name: Spot, formula: Spot },
    /// The name of a blob.
    Load(Spot),
    /// With a dash the goal stays as it is.
    Proof { dash: bool },
    Fix(Spot),
    Assume { name: Option<Spot>, formula: Spot },
    Have { name: Option<Spot>, formula: Spot },
    Show(Spot),
    Next,
    Qed,
    /// With a proof term, which is read when it is checked.
    By,
}
