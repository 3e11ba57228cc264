//! First-order formulas: what they are, when two say the same, which names are free in them, the
//! instance of a quantified formula at a term, and truth in a structure. Bound places are numbers,
//! counted from the innermost quantifier (de Bruijn 1972); the name beside a quantifier is kept for
//! printing alone. Parts are shared, so a copy takes constant time.
//!
//! It must not know proofs, text or theories.
#![tactic(auto)]

mod argument;
mod builders;
mod copies;
mod formula;
mod free;
mod instance;
mod laws;
mod name;
mod obj_term;
mod same;
mod shared;
mod structure;

pub use argument::Argument;
pub use formula::Formula;
pub use laws::{absent_name_law, instance_law, substitution_law};
pub use name::Name;
pub use obj_term::ObjTerm;
pub use shared::Shared;
pub use structure::Structure;
