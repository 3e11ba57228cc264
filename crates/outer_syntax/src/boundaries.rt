//! Places counted in symbols and in scalars, by a table that is made once for a text.

ghost use Rattle.std.specs.Prelude.{◌≡◌, ◌<◌, ◌≤◌, ◌↔◌, length, map, Some, IsTrue, slice_get, slice_index, IfOk, MatchResult};
ghost use Rattle.outer_syntax.specs.Boundaries.{boundaries, last_place, LiesBetween, number_at, NeverFalls};

use crate::place::symbol_end;
use std::alloc::{AllocError, Global};
use std::marker::Model;

/// The place is inside of a symbol, the one of this number from 0.
#[derive(Clone, Copy, Debug, PartialEq, Eq)]
pub struct Inside {
    pub symbol: usize,
}

/// Where the symbols of a text begin, and its end, in scalars. A contract sees the list of these
/// places.
#[derive(Debug, Drop)]
pub struct Boundaries {
    places: Vec<usize>,
}

impl Model for Boundaries {
    ghost use Rattle.std.specs.Prelude.{◌≡◌, ◌<◌, ℕ, List, length, slice_index};
    ghost use Rattle.outer_syntax.specs.Boundaries.{Rises};

    ghost Value = { List ℕ };

    ghost view = { λ b. b.places.items };

    ghost invariant = { λ b. (0 < length b.places.items)
        × (slice_index b.places.items 0 ≡ 0) × Rises b.places.items };
}

impl Boundaries {
    /// The boundaries of the text.
    pub fn of(alloc: Global, text: &[char]) -> Result<Boundaries, AllocError>
        ensures { IfOk result (λ b. b ≡ boundaries text.now) }
    {
        let mut places = Vec::new(alloc);
        places.push(0)?;
        let mut start = 0;
        while start < text.len() {
            start = symbol_end(text, start);
            places.push(start)?;
        }
        Ok(Boundaries { places })
    }

    /// Whether the place is within the text or its end.
    pub fn reaches(&self, offset: usize) -> bool
        ensures { IsTrue result ↔ (offset ≤ last_place self.now) }
    {
        match self.places.last() {
            Some(end) => offset <= *end,
            None => false,
        }
    }

    /// The number of the symbol that begins at the place, or of all symbols at the text's end.
    /// `Inside` comes exactly where the place is inside of a symbol.
    pub fn to_symbol(&self, offset: usize) -> Result<usize, Inside>
        requires { offset ≤ last_place self.now }
        ensures { MatchResult result (λ n. slice_get self.now n ≡ Some offset)
            (λ inside. LiesBetween self.now inside.symbol offset) }
    {
        match self.places.binary_search(&offset) {
            Ok(n) => Ok(n),
            Err(n) => Err(Inside { symbol: n - 1 }),
        }
    }

    /// The place where the symbol of this number begins, or the text's length for the number of all
    /// symbols. `None` comes exactly where the text has fewer symbols.
    pub fn to_scalar(&self, symbol: usize) -> Option<usize>
        ensures { result ≡ slice_get self.now symbol }
    {
        self.places.get(symbol).copied()
    }

    /// The number of the last boundary that isn't above the place, where the one of the number
    /// `from` isn't.
    fn number_from(&self, from: usize, offset: usize) -> usize
        requires within { from < length self.now }
        requires upto { slice_index self.now from ≤ offset }
        ensures value { result ≡ number_at self.now offset }
        ensures within { result < length self.now }
        ensures upto { slice_index self.now result ≤ offset }
    {
        let places = self.places.as_slice();
        let mut n = from;
        while n + 1 < places.len() && places[n + 1] <= offset {
            n += 1;
        }
        n
    }

    /// For each of the places, none of which is below the one before it, the number of the symbol
    /// that begins there or has it inside, or of all symbols at the text's end. One sweep gives
    /// them all.
    pub fn numbers(&self, alloc: Global, offsets: &[usize]) -> Result<Vec<usize>, AllocError>
        requires { NeverFalls offsets.now }
        ensures { IfOk result (λ v. v.items ≡ map (number_at self.now) offsets.now) }
    {
        let _first = self.places[0];
        let mut numbers = Vec::with_capacity(alloc, offsets.len())?;
        let mut number = 0;
        for offset in offsets {
            number = self.number_from(number, *offset);
            numbers.push(number)?;
        }
        Ok(numbers)
    }
}
