//! What holds of the symbols of every text.

ghost use Rattle.std.specs.Prelude.{◌≡◌, ◌↔◌, ℕ, List, length, Some, slice_get};
ghost use Rattle.text_words.specs.Pieces.{joined};
ghost use Rattle.outer_syntax.specs.Symbols.{AreSymbols, IsBoundary, IsInside, symbols_of};
ghost use Rattle.outer_syntax.specs.Boundaries.{boundaries, last_place, LiesBetween};

/// Each text has one list of symbols, which joins to it. A place between symbols has one number,
/// and is inside of none.
pub fn one_symbol_list()
    ensures just { (text : List ℕ) (symbols : List (ℕ × ℕ)) →
        AreSymbols text symbols ↔ (symbols ≡ symbols_of text) }
    ensures joins { (text : List ℕ) (symbols : List (ℕ × ℕ)) →
        AreSymbols text symbols → joined text symbols ≡ text }
    ensures number { (text : List ℕ) (m n place : ℕ) →
        IsBoundary text m place → IsBoundary text n place → m ≡ n }
    ensures apart { (text : List ℕ) (m n place : ℕ) →
        IsBoundary text m place → IsInside text n place → ⊥ }
{}

/// The boundaries of a text are numbered as its symbols are, and end with the text.
pub fn places_are_numbered()
    ensures at { (text : List ℕ) (n place : ℕ) →
        (slice_get (boundaries text) n ≡ Some place) ↔ IsBoundary text n place }
    ensures inside { (text : List ℕ) (n place : ℕ) →
        LiesBetween (boundaries text) n place ↔ IsInside text n place }
    ensures ends { (text : List ℕ) → last_place (boundaries text) ≡ length text }
{}
