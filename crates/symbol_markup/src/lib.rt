//! Reports at ranges that count symbols from 1, as the offsets of Isabelle's positions do.
//!
//! A range that begins or ends inside of a symbol is told from that symbol's number; what is left
//! empty so is left out (this project's own). The crate knows no message and no version: whether a
//! session counts symbols is the caller's. Nothing of a report is copied: what is told lends it.
#![tactic(auto)]

mod laws;
mod places;
mod scalars;
mod told;

pub use laws::{places_in_symbols, ranges_are_had_back};
pub use places::SymbolPlaces;
pub use scalars::reports_in_scalars;
pub use told::{in_symbols, reports_in_symbols};
