//! What holds of the definitions alone.
ghost use Rattle.text_words.specs.Identifier.{TestsIdentifiers};
ghost use Rattle.text_words.specs.Longest.{HasOneLongest};
ghost use Rattle.text_words.specs.Pieces.{TilesJoin};

/// The test of identifiers says yes of the identifiers alone.
pub fn test_of_identifiers()
    ensures { TestsIdentifiers }
{}

/// Each text has one longest front of a form, or none, and the search gives it.
pub fn one_longest_front()
    ensures { HasOneLongest }
{}

/// Pieces that tile a text join to it.
pub fn tiles_join()
    ensures { TilesJoin }
{}
