//! The words that texts of every kind are told with: identifiers, blanks, the longest front with a
//! form, the text between two places, and pieces that tile a text; and what lists of numbers have.
//! A text is such a list here, of bytes or scalars. Identifiers and blanks are those of Isabelle's
//! outer syntax in ASCII, the rest is this project's own. It must not know documents, tokens or the
//! language.
#![tactic(auto)]

mod blank;
mod identifier;
mod laws;
mod scalars;

pub use blank::is_blank;
pub use identifier::{identifier_front, is_identifier, is_identifier_part};
pub use laws::{one_longest_front, test_of_identifiers, tiles_join};
pub use scalars::text_of;
