//! What holds of places counted in symbols, as the contracts of functions that do nothing.
ghost use Rattle.std.specs.Prelude.{◌≡◌, ◌+◌, ◌≤◌, ◌↔◌, ℕ, List, length, map};
ghost use Rattle.std.specs.List.{AllByRecursion};
ghost use Rattle.pide_base.specs.declared.range.Range.{Range};
ghost use Rattle.report_markup.specs.declared.report.Report.{Report};
ghost use Rattle.report_markup.specs.Sorting.{ordered_reports};
ghost use Rattle.outer_syntax.specs.Symbols.{IsBoundary, symbols_of};
ghost use Rattle.symbol_markup.specs.Places.{IsSymbolPlace, symbol_place, symbol_range};
ghost use Rattle.symbol_markup.specs.Places.{StandsOnSymbols, scalar_place, scalar_range};
ghost use Rattle.symbol_markup.specs.Told.{in_symbols, at_scalars};

use outer_syntax::{one_symbol_list, places_are_numbered};

/// Each place of a text has one number, that of the function. Later places have no lower ones, so
/// ranges that are equal, nested or disjoint stay so; and places behind the end have the end's.
pub fn places_in_symbols()
    ensures just { (text : List ℕ) (place number : ℕ) → place ≤ length text →
        IsSymbolPlace text place number ↔ (number ≡ symbol_place text place) }
    ensures rises { (text : List ℕ) (place later : ℕ) → place ≤ later →
        symbol_place text place ≤ symbol_place text later }
    ensures behind { (text : List ℕ) (place : ℕ) → length text ≤ place →
        symbol_place text place ≡ symbol_place text (length text) }
    ensures within { (text : List ℕ) (place : ℕ) → symbol_place text place ≤ length text + 1 }
    ensures counted { (text : List ℕ) (place : ℕ) →
        symbol_place text place ≤ length (symbols_of text) + 1 }
{
    one_symbol_list();
}

/// Places between symbols are had back from their numbers, and so are ranges that stand on symbols
/// from theirs. Of reports at such ranges none is left out, and what is told of them gives them
/// back in report order.
pub fn ranges_are_had_back()
    ensures place { (text : List ℕ) (n place : ℕ) → IsBoundary text n place →
        scalar_place text (symbol_place text place) ≡ place }
    ensures range { (text : List ℕ) (range : Range) → StandsOnSymbols text range →
        scalar_range text (symbol_range text range) ≡ range }
    ensures reports { (text : List ℕ) (reports : List Report)
        → AllByRecursion (λ r. StandsOnSymbols text r.range) reports
        → map (at_scalars text) (in_symbols text reports) ≡ ordered_reports reports }
{
    places_are_numbered();
    places_in_symbols();
}
