//! The places of one text, counted in symbols.
ghost use Rattle.std.specs.Prelude.{◌≡◌, ◌+◌, ◌≤◌, ◌&&◌, nat_le, length, IfOk};
ghost use Rattle.outer_syntax.specs.Symbols.{symbols_of};
ghost use Rattle.symbol_markup.specs.Places.{symbol_place, symbol_range, scalar_place, scalar_range};

use crate::laws::places_in_symbols;
use outer_syntax::{Boundaries, places_are_numbered};
use pide_base::Range;
use std::alloc::{AllocError, Global};
use std::marker::Model;

/// Where the symbols of a text begin, as a table that is made once. Contracts see the text.
#[derive(Drop)]
pub struct SymbolPlaces<'a> {
    text: &'a [char],
    table: Boundaries,
}

impl<'a> Model for SymbolPlaces<'a> {
    ghost use Rattle.std.specs.Prelude.{◌≡◌, ℕ, List};
    ghost use Rattle.outer_syntax.specs.Boundaries.{boundaries};

    ghost Value = { List ℕ };

    ghost view = { λ places. places.text.now };

    ghost invariant = { λ places. places.table ≡ boundaries places.text.now };
}

impl<'a> SymbolPlaces<'a> {
    /// The places of the text, in time linear in its length.
    pub fn of(alloc: Global, text: &'a [char]) -> Result<SymbolPlaces<'a>, AllocError>
        ensures { IfOk result (λ places. places ≡ text.now) }
    {
        Ok(SymbolPlaces {
            text,
            table: Boundaries::of(alloc, text)?,
        })
    }

    /// The number, from 0, of the symbol that begins at the place or has it inside, or of all
    /// symbols at the text's end.
    fn symbol_at(&self, place: usize) -> usize
        requires { place ≤ length self.now }
        ensures { result + 1 ≡ symbol_place self.now place }
    {
        places_are_numbered();
        places_in_symbols();
        match self.table.to_symbol(place) {
            Ok(symbol) => symbol,
            Err(inside) => inside.symbol,
        }
    }

    /// One more than the number of the symbol that begins at the place or has it inside, or than
    /// the number of all symbols at the text's end or behind it. The place is counted in scalars
    /// from 0. Time is logarithmic in the number of symbols.
    pub fn place(&self, place: usize) -> usize
        ensures { result ≡ symbol_place self.now place }
    {
        places_in_symbols();
        self.symbol_at(place.min(self.text.len())) + 1
    }

    /// Whether a symbol of the text, or its end, has this number, counted from 1.
    pub fn has(&self, number: usize) -> bool
        ensures { result
            ≡ (nat_le 1 number && nat_le number (length (symbols_of self.now) + 1)) }
    {
        number > 0 && self.table.to_scalar(number - 1).is_some()
    }

    /// Where the symbol of a number, counted from 1, begins, in scalars from 0; the text's end for
    /// a number that is higher than those of all symbols. Time is constant.
    pub fn scalar(&self, number: usize) -> usize
        ensures { result ≡ scalar_place self.now number }
    {
        match self.table.to_scalar(number.saturating_sub(1)) {
            Some(place) => place,
            None => self.text.len(),
        }
    }

    /// The range in scalars of one in symbols.
    pub fn scalars(&self, range: Range) -> Range
        ensures { result ≡ scalar_range self.now range }
    {
        Range {
            start: self.scalar(range.start),
            stop: self.scalar(range.stop),
        }
    }

    /// The range in symbols of one in scalars.
    pub fn range(&self, range: Range) -> Range
        ensures { result ≡ symbol_range self.now range }
    {
        Range {
            start: self.place(range.start),
            stop: self.place(range.stop),
        }
    }
}
